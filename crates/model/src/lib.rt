// Document 01, with K1 to K3 and K12 of document 02, as definitions, their laws, and what is promised of
// them. There is no code here but `promises`.
#![tactic(auto)]

ghost use Rattle.model.specs.Promises.Figures.{Figures};
ghost use Rattle.model.specs.Promises.Limits.{Limits};
ghost use Rattle.model.specs.Promises.RoundFigures.{RoundFigures};
ghost use Rattle.model.specs.Promises.LargerFigures.{LargerFigures};
ghost use Rattle.model.specs.Promises.OrderFigures.{OrderFigures};
ghost use Rattle.model.specs.Promises.Refusals.{Refusals};
ghost use Rattle.model.specs.Promises.Noninterference.{Noninterference};
ghost use Rattle.model.specs.Promises.ReadAfterWrite.{ReadAfterWrite};
ghost use Rattle.model.specs.Promises.BufferBounds.{BufferBounds};
ghost use Rattle.model.specs.Promises.Questions.{Questions};
ghost use Rattle.model.specs.Promises.TreeCheck.{TreeCheck};
ghost use Rattle.model.specs.Promises.LineOfOffers.{LineOfOffers};
ghost use Rattle.model.specs.Promises.Waiting.{Waiting};

// Holds the promises in its contract, so that none can be dropped unseen; what each says is its own file's.
pub fn promises()
    ensures figures { Figures }
    ensures limits { Limits }
    ensures round_figures { RoundFigures }
    ensures larger_figures { LargerFigures }
    ensures order_figures { OrderFigures }
    ensures refusals { Refusals }
    ensures noninterference { Noninterference }
    ensures read_after_write { ReadAfterWrite }
    ensures buffer_bounds { BufferBounds }
    ensures questions { Questions }
    ensures tree_check { TreeCheck }
    ensures line { LineOfOffers }
    ensures waiting { Waiting }
{}
