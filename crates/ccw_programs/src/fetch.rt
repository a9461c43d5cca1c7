//! The CCWs of one command, fetched from storage (Principles of Operation, chapter 15, "Channel-Command Word", "Data
//! Chaining" and "Transfer in Channel"; which bits may be on, and the limits, are the profile's).

ghost use Rattle.std.specs.Prelude.{◌≡◌, ◌<◌, ◌≤◌, ◌+◌, ◌-◌, ◌==◌, ◌%◌, length, [], ◌∷◌, false, MatchResult, IfOk, IfErr, OnOk, All};
ghost use Rattle.ccw_programs.specs.Links.{Tells, TellsKind, rule_at, rule_of_kind, fetch_at, fetched_on, kind_of_fetch, is_transfer, is_allowed, chain, ChainBegins, IsSound, Whole, Broken, Sound};
ghost use Rattle.io_images.specs.Images.{ccw_of};

use crate::rule::{FailedCcw, Rule};
use arrayvec::ArrayVec;
use io_area::Area;
use io_images::Ccw;

/// A CCW of a chain, and where it was fetched.
#[derive(Clone, Copy, PartialEq, Eq, Debug, Default)]
pub struct Link {
    pub at: u32,
    pub ccw: Ccw,
}

/// What a fetched CCW is.
#[derive(Clone, Copy, PartialEq, Eq, Debug)]
pub enum Fetch {
    Refused,
    Transfer(u32),
    More(Ccw),
    Last(Ccw),
}

/// How many values the low four bits of a command have (chapter 15, "Command Code").
const LOW_VALUES: u8 = 0x10;

/// The low four bits of a transfer in channel.
const TRANSFER_BITS: u8 = 0x08;

/// The low four bits that are no command.
const INVALID_BITS: u8 = 0x00;

/// Whether a CCW is a transfer in channel.
fn is_transfer(ccw: &Ccw) -> bool
    ensures { result ≡ is_transfer ccw.now }
{
    ccw.command % LOW_VALUES == TRANSFER_BITS
}

/// Whether a CCW that is no transfer may be at this position in its chain.
fn is_allowed(place: usize, ccw: &Ccw) -> bool
    ensures { result ≡ is_allowed place ccw.now }
{
    !(place == 0 && ccw.command % LOW_VALUES == INVALID_BITS)
        && ccw.flags.reserved_off()
        && ccw.count != 0
        && place < 16
}

/// What a CCW is at this position in its chain. `may_transfer` says whether it may be a transfer.
fn kind_of_fetch(may_transfer: bool, place: usize, ccw: Ccw) -> Fetch
    ensures value { result ≡ kind_of_fetch may_transfer place ccw }
    ensures tells { TellsKind result place }
{
    if is_transfer(&ccw) {
        if may_transfer && ccw.address.get() % 8 == 0 {
            Fetch::Transfer(ccw.address.get())
        } else {
            Fetch::Refused
        }
    } else if is_allowed(place, &ccw) {
        if ccw.flags.chains_data() {
            Fetch::More(ccw)
        } else {
            Fetch::Last(ccw)
        }
    } else {
        Fetch::Refused
    }
}

/// What is fetched from an address.
fn fetch_at(area: &Area, may_transfer: bool, place: usize, at: u32) -> Fetch
    ensures value { result ≡ fetch_at area.now may_transfer place at }
    ensures tells { Tells result place at }
{
    if at % 8 != 0 {
        return Fetch::Refused;
    }
    match area.get(at, 8) {
        Some(image) => kind_of_fetch(may_transfer, place, read_ccw(image)),
        None => Fetch::Refused,
    }
}

/// The CCW of 8 bytes, in format 0.
fn read_ccw(image: &[u8]) -> Ccw
    requires { length image.now ≡ 8 }
    ensures { result ≡ ccw_of image.now }
{
    Ccw::read(&[
        image[0], image[1], image[2], image[3], image[4], image[5], image[6], image[7],
    ])
}

/// How the CCWs of a command begin: with the only one, or with one whose data the next CCW continues. Each has the
/// number of fetches after it. Or the CCW at an address failed.
#[derive(Clone, Copy, PartialEq, Eq, Debug)]
pub enum First {
    Single(Link, u16),
    Chained(Link, u16),
    Failed(u32),
}

/// CCWs that one attempt may fetch.
pub(crate) const FETCH_LIMIT: u16 = 4096;

/// The CCWs of one command: at most 16.
pub type Links = ArrayVec<Link, 16>;

/// Fetches the first CCW of a command.
#[inline(always)]
pub(crate) fn fetch_first(area: &Area, start: u32, fetches: u16) -> First
    requires { fetches ≤ 4096 }
    ensures chain { ChainBegins area.now result (chain area.now start fetches) }
    ensures sound { IsSound result }
{
    let mut at = start;
    let mut may_transfer = fetches != 0;
    for done in fetches..FETCH_LIMIT {
        match fetch_at(area, may_transfer, 0, at) {
            Fetch::Refused => return First::Failed(at),
            Fetch::Transfer(to) => {
                at = to;
                may_transfer = false;
            }
            Fetch::More(ccw) => return First::Chained(Link { at, ccw }, done + 1),
            Fetch::Last(ccw) => return First::Single(Link { at, ccw }, done + 1),
        }
    }
    First::Failed(at)
}

/// Fetches the remaining CCWs of a command, from the address `from` on. `transfers` says whether a transfer in channel
/// may come first. Returns the number of fetches after them, or the CCW that failed.
pub(crate) fn fetch_on(
    area: &Area,
    from: u32,
    transfers: bool,
    fetches: u16,
    links: &mut Links,
) -> Result<u16, FailedCcw>
    requires limit { fetches ≤ 4096 }
    requires sound { All Sound links.old.items }
    ensures some { OnOk result (1 ≤ length links.new.items) }
    ensures few { OnOk result (length links.new.items ≤ 16) }
    ensures sound { OnOk result (All Sound links.new.items) }
    ensures fetches { IfOk result (λ after. after ≤ 4096) }
    ensures chain { MatchResult result (λ after. fetched_on area.now links.old.items fetches transfers from ≡ Whole links.new.items after) (λ refusal. fetched_on area.now links.old.items fetches transfers from ≡ Broken links.new.items refusal) }
{
    let mut at = from;
    let mut may_transfer = transfers;
    for done in fetches..FETCH_LIMIT {
        match fetch_at(area, may_transfer, links.len(), at) {
            Fetch::Refused => {
                let rule = broken_rule(area, may_transfer, links.len(), at);
                return Err(FailedCcw { at, rule });
            }
            Fetch::Transfer(to) => {
                at = to;
                may_transfer = false;
            }
            Fetch::More(ccw) => {
                links.push(Link { at, ccw });
                at += 8;
                may_transfer = true;
            }
            Fetch::Last(ccw) => {
                links.push(Link { at, ccw });
                return Ok(done + 1);
            }
        }
    }
    Err(FailedCcw {
        at,
        rule: Rule::FetchLimit,
    })
}

/// The rule that a CCW at an address breaks which is refused.
#[inline(never)]
fn broken_rule(area: &Area, may_transfer: bool, place: usize, at: u32) -> Rule
    ensures { result ≡ rule_at area.now may_transfer place at }
{
    if at % 8 != 0 {
        return Rule::CcwMisaligned;
    }
    match area.get(at, 8) {
        Some(image) => rule_of_kind(may_transfer, place, &read_ccw(image)),
        None => Rule::CcwOutside,
    }
}

/// The first rule that a CCW at this position breaks. `may_transfer` says whether it may be a transfer.
fn rule_of_kind(may_transfer: bool, place: usize, ccw: &Ccw) -> Rule
    ensures { result ≡ rule_of_kind may_transfer place ccw.now }
{
    if is_transfer(ccw) {
        return if may_transfer {
            Rule::TransferMisaligned
        } else {
            Rule::TransferMisplaced
        };
    }
    if place == 0 && ccw.command % LOW_VALUES == INVALID_BITS {
        Rule::NoCommand
    } else if !ccw.flags.reserved_off() {
        Rule::FlagsReserved
    } else if ccw.count == 0 {
        Rule::CountZero
    } else {
        Rule::ChainTooLong
    }
}
