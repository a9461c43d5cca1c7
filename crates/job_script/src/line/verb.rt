//! The first word of a line.

ghost use Rattle.std.specs.Prelude.{◌≡◌};
ghost use Rattle.job_script.specs.Verbs.{verb_of};

use script_words::is_word;

/// The first word of a line.
#[derive(Clone, Copy)]
pub enum Verb {
    SetUp(SetUpVerb),
    Excp,
    Purge,
    PurgeTask,
    Close,
    Reset,
    Wait,
}

/// The first word of a set-up line.
#[derive(Clone, Copy)]
pub enum SetUpVerb {
    Tasks,
    Disk,
    Tape,
    Printer,
    Record,
    Block,
    Mark,
    Fault,
    Open,
    Area,
}

impl Verb {
    /// What a first word says. The words of long scripts come first.
    #[inline(always)]
    #[tactic(auto, unfolding(crate::specs::Verbs::verb_of))]
    pub fn of(word: &[u8]) -> Option<Verb>
        ensures { result ≡ verb_of word.now }
    {
        if is_word(word, b"excp") {
            return Some(Verb::Excp);
        }
        if is_word(word, b"wait") {
            return Some(Verb::Wait);
        }
        if is_word(word, b"fault") {
            return Some(Verb::SetUp(SetUpVerb::Fault));
        }
        if is_word(word, b"rec") {
            return Some(Verb::SetUp(SetUpVerb::Record));
        }
        if is_word(word, b"area") {
            return Some(Verb::SetUp(SetUpVerb::Area));
        }
        if is_word(word, b"open") {
            return Some(Verb::SetUp(SetUpVerb::Open));
        }
        if is_word(word, b"purge") {
            return Some(Verb::Purge);
        }
        if is_word(word, b"purgetask") {
            return Some(Verb::PurgeTask);
        }
        if is_word(word, b"close") {
            return Some(Verb::Close);
        }
        if is_word(word, b"reset") {
            return Some(Verb::Reset);
        }
        if is_word(word, b"block") {
            return Some(Verb::SetUp(SetUpVerb::Block));
        }
        if is_word(word, b"mark") {
            return Some(Verb::SetUp(SetUpVerb::Mark));
        }
        if is_word(word, b"disk") {
            return Some(Verb::SetUp(SetUpVerb::Disk));
        }
        if is_word(word, b"tape") {
            return Some(Verb::SetUp(SetUpVerb::Tape));
        }
        if is_word(word, b"printer") {
            return Some(Verb::SetUp(SetUpVerb::Printer));
        }
        if is_word(word, b"tasks") {
            return Some(Verb::SetUp(SetUpVerb::Tasks));
        }
        None
    }
}
