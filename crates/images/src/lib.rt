// Laws of the images of a batch: what a call leaves for one image depends on that image alone. No code rests on them, so no must-fail edit of the code checks
// them again.
#![tactic(auto)]
