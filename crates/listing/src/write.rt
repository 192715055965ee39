// The listing as a whole, written into the caller's output.
ghost use Rattle.std.specs.Prelude.{◌≡◌, ◌+◌, ◌≤◌, ◌++◌, length, nat_le};
ghost use Rattle.planner.specs.Slips.{totals_of};
ghost use Rattle.listing.specs.Lines.{refusal_line};
ghost use Rattle.listing.specs.Listing.{link_lines, plan_bytes, written, fit_answer, fit_output};

use crate::rows::{cost_line, head_line, link_line, refusal_line};
use planner::Slip;
use records::{Fault, Layer, Link, Refusal};

/// The output is too short for what is to be listed.
const TOO_SHORT: Fault = Fault {
    refusal: Refusal::ShortOutput,
    layer: Layer::Listing,
    place: 0,
};

/// Copies bytes into the output from a place on, and answers where they end. The place stays a number beside the output, which
/// is the caller's: a struct of both would be made for two functions.
fn put(bytes: &[u8], out: &mut [u8], at: usize) -> usize
    requires { at + length bytes.now ≤ length out.old }
    ensures end { result ≡ at + length bytes.now }
    ensures output { out.new ≡ written out.old at bytes.now }
{
    let end = at + bytes.len();
    out[at..end].copy_from_slice(bytes);
    end
}

/// Whether the lines of the links take up at most this room.
fn links_fit(links: &[Link], room: usize) -> bool
    ensures { result ≡ nat_le (length (link_lines 0 links.now)) room }
{
    let mut left = room;
    for (number, link) in links.iter().enumerate() {
        let len = link_line(number, *link).as_bytes().len();
        if len > left {
            return false;
        }
        left -= len;
    }
    true
}

/// Copies the lines of the links into the output from a place on, and answers where they end.
fn put_links(links: &[Link], out: &mut [u8], start: usize) -> usize
    requires { start + length (link_lines 0 links.now) ≤ length out.old }
    ensures end { result ≡ start + length (link_lines 0 links.now) }
    ensures output { out.new ≡ written out.old start (link_lines 0 links.now) }
{
    let mut at = start;
    for (number, link) in links.iter().enumerate() {
        at = put(link_line(number, *link).as_bytes(), out, at);
    }
    at
}

/// Whether the first line, the lines of the links and the last line take up at most this room.
fn lines_fit(first: &[u8], links: &[Link], last: &[u8], room: usize) -> bool
    requires { (length first.now ≤ 128) × (length last.now ≤ 128) }
    ensures { result ≡ nat_le (length (first.now ++ link_lines 0 links.now ++ last.now)) room }
{
    let fixed = first.len() + last.len();
    fixed <= room && links_fit(links, room - fixed)
}

/// Lists a plan at the start of the output, and answers how many bytes that took; later bytes stand.
/// Where the output is too short, it is not touched.
pub(crate) fn write_plan(slip: &Slip, links: &[Link], out: &mut [u8]) -> Result<usize, Fault>
    ensures answer { result ≡ fit_answer (plan_bytes (totals_of slip.now) links.now) out.old }
    ensures output { out.new ≡ fit_output (plan_bytes (totals_of slip.now) links.now) out.old }
{
    let head = head_line(slip.actors(), slip.given(), slip.back());
    let cost = cost_line(slip.before(), slip.after());
    let first = head.as_bytes();
    let last = cost.as_bytes();
    if !lines_fit(first, links, last, out.len()) {
        return Err(TOO_SHORT);
    }
    let links_at = put(first, out, 0);
    let last_at = put_links(links, out, links_at);
    Ok(put(last, out, last_at))
}

/// Lists a refusal at the start of the output, and answers how many bytes that took; later bytes stand.
/// Where the output is too short, it is not touched.
pub(crate) fn write_refusal(fault: Fault, out: &mut [u8]) -> Result<usize, Fault>
    ensures answer { result ≡ fit_answer (refusal_line fault) out.old }
    ensures output { out.new ≡ fit_output (refusal_line fault) out.old }
{
    let line = refusal_line(fault);
    let bytes = line.as_bytes();
    if bytes.len() > out.len() {
        return Err(TOO_SHORT);
    }
    Ok(put(bytes, out, 0))
}
