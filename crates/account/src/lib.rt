#![tactic(auto)]

// What calls do to a string and to the bytes on it: definitions and laws alone, for the contracts of the calls.
