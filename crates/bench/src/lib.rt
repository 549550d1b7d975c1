// Document 01's bench cases (B), as one theorem over the definitions. No code rests on it.
#![tactic(auto)]
