//! The parts of a text that are always the same.
ghost use Rattle.std.specs.Prelude.{◌≡◌};
ghost use Rattle.explanation.specs.Labels.{label_text};

/// A part of a text that is always the same.
#[derive(Clone, Copy)]
pub(crate) enum Label {
    /// Before the count of units.
    Program,
    /// Before the length of a record.
    Records,
    /// After it.
    Bytes,
    /// Before the bound.
    Accepted,
    /// Before the frames.
    Frames,
    /// Before what usually helps.
    Help,
    /// Before the number of a frame, whose state follows.
    Frame,
    /// Where no byte of it is set.
    NoByte,
    /// Before the pc from which a function is called.
    Called,
}

/// The part itself.
#[tactic(auto, unfolding(crate::specs::Labels::label_text))]
pub(crate) fn words_of_label(which: Label) -> &'static str
    ensures { result.now ≡ label_text which }
{
    match which {
        Label::Program => "program of ",
        Label::Records => " units, records of ",
        Label::Bytes => " bytes\n",
        Label::Accepted => "accepted, bound ",
        Label::Frames => ", frames ",
        Label::Help => "what helps: ",
        Label::Frame => "known of frame ",
        Label::NoByte => " no byte is set",
        Label::Called => "called at ",
    }
}
