// Definitions and laws alone, in specs/: parts of a list of bytes, what a store leaves of it, and words as bytes.
#![tactic(auto)]
