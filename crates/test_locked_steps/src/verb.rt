//! The first word of a line that scripts do not have.

ghost use Rattle.std.specs.Prelude.{◌≡◌};
ghost use Rattle.test_locked_steps.specs.EventVerbs.{event_verb_of};

use script_words::is_word;

/// The first word of a line that scripts do not have.
#[derive(Clone, Copy)]
pub(crate) enum EventVerb {
    Room,
    Take,
    Start,
    Run,
    Interrupt,
    Deliver,
    Collect,
    PurgeTaskAt,
    Settle,
    Serve,
    Finish,
    Expect,
}

impl EventVerb {
    /// What a first word says.
    #[tactic(auto, unfolding(crate::specs::EventVerbs::event_verb_of))]
    pub(crate) fn of(word: &[u8]) -> Option<EventVerb>
        ensures { result ≡ event_verb_of word.now }
    {
        let verb = if is_word(word, b"expect") {
            EventVerb::Expect
        } else if is_word(word, b"serve") {
            EventVerb::Serve
        } else if is_word(word, b"take") {
            EventVerb::Take
        } else if is_word(word, b"start") {
            EventVerb::Start
        } else if is_word(word, b"run") {
            EventVerb::Run
        } else if is_word(word, b"interrupt") {
            EventVerb::Interrupt
        } else if is_word(word, b"deliver") {
            EventVerb::Deliver
        } else if is_word(word, b"collect") {
            EventVerb::Collect
        } else if is_word(word, b"purgetaskat") {
            EventVerb::PurgeTaskAt
        } else if is_word(word, b"settle") {
            EventVerb::Settle
        } else if is_word(word, b"finish") {
            EventVerb::Finish
        } else if is_word(word, b"room") {
            EventVerb::Room
        } else {
            return None;
        };
        Some(verb)
    }
}
