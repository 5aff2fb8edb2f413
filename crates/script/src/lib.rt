// The listing's lines (document 01, "Figures to hold against"): what a line of input means, and how a line of
// output is spelt. No function here reads or writes a file.
#![tactic(auto)]

ghost use Rattle.script.specs.Samples.{OutputSamples, InputSamples, Decimals};

pub mod lines; // a line of input: public number, one space, and offered number or `-`
pub mod feeding; // the input byte by byte, each line held until it ends
pub mod texts; // text and numbers put into a lent buffer
pub mod reports; // the heading and a line of output

// Holds the samples in its contract, so that none can be dropped unseen.
pub fn samples()
    ensures output { OutputSamples }
    ensures input { InputSamples }
    ensures decimals { Decimals }
{}
