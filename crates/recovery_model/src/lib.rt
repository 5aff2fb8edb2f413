// Pulled plugs (document 02, K5): a write that is cut after any store, and recovery, as definitions, their
// laws, and what is promised of them. There is no code here but `promises`.
#![tactic(auto)]

ghost use Rattle.recovery_model.specs.Promises.Recovery.{Recovery};

// Holds the promise in its contract, so that it cannot be dropped unseen; what it says is its own file's.
pub fn promises()
    ensures recovery { Recovery }
{}
