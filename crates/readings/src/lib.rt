// Laws that read the definitions of the operators in document 01's words. No code rests on them, so no must-fail edit of the code checks them again.
#![tactic(auto)]
