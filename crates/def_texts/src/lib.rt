//! Names and numbers as texts say them: the form of a name, and a number's decimal digits.
#![tactic(auto)]
