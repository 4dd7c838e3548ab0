#![tactic(auto)]

// The worked samples, as one theorem about the definitions.
ghost use Rattle.sample_proofs.specs.Samples.{Samples};

pub fn samples_stand()
    ensures { Samples }
{}
