// The built line beside the ideal line: nobody can tell them apart. There is no code here: the definitions are in specs/, and proofs/
// proves what specs/Promises.antt and specs/Texts.antt promise.
#![tactic(auto)]
