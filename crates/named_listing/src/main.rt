// The second printing program, of document 02, CR 2: reads two lists of names from standard input, each behind two bytes of its length,
// then a packed property and records, up to the end record and no further, and writes their listing with names to standard output.
// What is written, the crate `named` says.
#![tactic(auto)]

ghost use Rattle.std.specs.Prelude.{ℕ, ◌≤◌, ◌≡◌, true, length};
ghost use Rattle.io.specs.Counts.{IsPrefixLen};
ghost use Rattle.session_record.specs.Step.{fresh_of};
ghost use Rattle.named_listing.specs.Next.{read_in, ListCame, NamedFollows};

use line_text::NamedLine;
use outcomes::Refusal;
use property::Property;
use session_record::Session;
use std::io::{Read, Write};

// Reads a list, and gives the number of its bytes. Input that ends early and a read that fails leave fewer, which is then refused.
fn read_list<R: Read>(input: &mut R, of_release: bool, list: &mut [u8]) -> Result<usize, Refusal>
    requires { 65536 ≤ length list.old }
    ensures { (came : ℕ) × IsPrefixLen (read_in came result).len list.new × ListCame of_release list.new (read_in came result) }
{
    let mut head = [0u8; 2];
    let got = listing_shell::read_full(input, &mut head);
    let size = name_list::size(head[0], head[1]);
    let len = listing_shell::read_full(input, &mut list[..size]);
    name_list::refused(of_release, &head[..got], &list[..len])?;
    Ok(len)
}

// Writes what a record added, at once, and answers whether the listing goes on. One that cannot be written does not. The lists, the property
// and the number of records so far are there for the contract alone: they say which text is the next of the listing, and no other can be put.
fn put<'a, W: Write>(
    out: &mut W,
    site: &'a [u8],
    release: &'a [u8],
    p: Property,
    records: u64,
    text: NamedLine,
    more: bool,
) -> bool
    requires { NamedFollows site.now release.now p records text }
    ensures { result ≡ true → more ≡ true }
{
    listing_shell::shown(out, text, more)
}

// Lists the records. A proved loop has to end, and nothing says that the input does: the loop counts its turns, up to a number that no
// run comes to. It is not one with `listing_shell::records`: what a turn hands on to the next is another, and so is each fact of it.
fn records<'a, R: Read, W: Write>(
    input: &mut R,
    out: &mut W,
    site: &'a [u8],
    release: &'a [u8],
    s: Session,
)
    requires { s ≡ (fresh_of s.property).session }
{
    let mut session = s;
    let mut count = 0;
    for turns in 0..u64::MAX {
        let mut bytes = [0u8; 6];
        let got = listing_shell::read_full(input, &mut bytes);
        let r = named::record(site, release, session, count, &bytes[..got]);
        if !put(out, site, release, s.property, turns, r.text, r.more) {
            return;
        }
        session = r.session;
        count = r.count;
    }
}

// Lists what stands behind the two lists.
fn log<'a, R: Read, W: Write>(input: &mut R, out: &mut W, site: &'a [u8], release: &'a [u8]) {
    let b = listing_shell::begun(input);
    if listing_shell::shown(out, b.text, b.more) {
        records(input, out, site, release, b.session);
    }
}

// Reads the two lists, and lists what stands behind them, unless a list is refused.
fn lists<R: Read, W: Write>(input: &mut R, out: &mut W) -> Result<(), Refusal> {
    let mut site = io::large_buffer();
    let own = read_list(input, false, &mut site)?;
    let mut release = io::large_buffer();
    let other = read_list(input, true, &mut release)?;
    log(input, out, &site[..own], &release[..other]);
    Ok(())
}

fn main(rt: HostRuntime) {
    let mut input = rt.stdin();
    let mut out = rt.stdout();
    if !listing_shell::write(&mut out, printout::named_header()) {
        return;
    }
    // A list that is refused ends the listing.
    if let Err(refusal) = lists(&mut input, &mut out) {
        listing_shell::write(&mut out, printout::stop(0, u64::from(refusal)));
    }
}
