// What the CCD operator may learn of the infrared operator (document 02, request P6) is a claim about the functions of `operators`, `head` and
// `due`, by what they promise: specs/Run.antt, specs/Observation.antt and specs/Premises.antt state it, proofs/Unseen.antt proves it.
#![tactic(auto)]
