// What the host calls.
