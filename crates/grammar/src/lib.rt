// No code: the grammar of document 01, "Path text", and its refusals 1 to 7, are in specs/.
#![tactic(auto)]
