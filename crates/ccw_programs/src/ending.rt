//! Where a command ended, and what its chain counts (Principles of Operation, chapter 15, "Data Chaining", and
//! chapter 16, "Count Field").

ghost use Rattle.std.specs.Prelude.{◌≡◌, ◌≤◌, ◌<◌, ◌+◌, ◌*◌, ◌-◌, length};
ghost use Rattle.ccw_programs.specs.Step.{ending, last_of, first_of};
ghost use Rattle.ccw_programs.specs.Links.{total_count};

use crate::fetch::Link;

/// Where a command ended, and what is left of that CCW's count.
#[derive(Clone, Copy, PartialEq, Eq, Debug)]
pub struct Ending {
    pub link: Link,
    pub residual: u16,
}

/// The CCW in which a command that moved `n` bytes ended, and the residual count of that CCW.
pub(crate) fn ending_of(links: &[Link], n: u32) -> Ending
    requires { 1 ≤ length links.now }
    ensures { result ≡ ending links.now n }
{
    let mut link = &links[0];
    let mut rest = &links[1..];
    let mut left = n;
    while let [next, others @ ..] = rest {
        let count = u32::from(link.ccw.count);
        if left < count {
            break;
        }
        left -= count;
        link = next;
        rest = others;
    }
    ended_in(*link, left)
}

/// The ending of a command in this CCW, of which it used up `n` bytes.
#[inline(always)]
pub(crate) fn ended_in(link: Link, n: u32) -> Ending
    ensures { result ≡ record { link = link; residual = link.ccw.count - n } }
{
    Ending {
        link,
        residual: u32::from(link.ccw.count).saturating_sub(n) as u16,
    }
}

/// The bytes that a chain counts.
pub(crate) fn total_count(links: &[Link]) -> u32
    requires { length links.now ≤ 16 }
    ensures { result ≡ total_count links.now }
{
    links.iter().map(|l| u32::from(l.ccw.count)).sum()
}

/// The last CCW of a chain.
pub(crate) fn last_of(links: &[Link]) -> Link
    requires { 1 ≤ length links.now }
    ensures { result ≡ last_of links.now }
{
    links[links.len() - 1]
}

/// The command of a chain, which is that of its first CCW (chapter 15, "Command Code").
pub(crate) fn command_code(links: &[Link]) -> u8
    requires { 1 ≤ length links.now }
    ensures { result ≡ (first_of links.now).ccw.command }
{
    links[0].ccw.command
}
