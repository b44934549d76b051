// What a path means. There is no code here: the definitions are in specs/, and proofs/ proves what
// specs/Promises.antt and specs/LinePromises.antt promise.
#![tactic(auto)]
