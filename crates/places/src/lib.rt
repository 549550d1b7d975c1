// Laws of convolution's places: where each tap of an output finds its two factors. The code of running and of halved sums rests on them.
#![tactic(auto)]
