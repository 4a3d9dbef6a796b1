//! The options of a header (RFC 9293, section 3.2).

ghost use Rattle.std.specs.Prelude.{◌≡◌, length, option_map};
ghost use Rattle.spec_wire.specs.Segment.{next_option, no_options, read_options, sized_option, with_option};
ghost use Rattle.net_seg.specs.Shown.{shown_option, shown_options};

use byteorder::{BigEndian, ByteOrder};

// The kind of the option that tells the maximum segment size.
const MAXIMUM_SEGMENT_SIZE: u8 = 2;

/// What the options of a header tell.
#[derive(Clone, Copy, Debug, PartialEq, Eq)]
pub struct Options {
    pub mss: Option<u16>,
}

// An option at the front of a header's octets, and what follows it.
enum NextOption<'a> {
    // All octets were read, or the option is the end of all.
    Ends,
    // An option of one octet, which is there for alignment.
    Padding(&'a [u8]),
    OfKind {
        kind: u8,
        body: &'a [u8],
        rest: &'a [u8],
    },
    // The option has no length, or a length below 2 or past the header.
    Wrong,
}

// What stands behind the kind of an option that has a length.
fn sized_option(kind: u8, octets: &[u8]) -> NextOption<'_>
    ensures { shown_option result ≡ sized_option kind octets.now }
{
    let [size, rest @ ..] = octets else {
        return NextOption::Wrong;
    };
    let size = usize::from(*size);
    if size < 2 || rest.len() + 2 < size {
        return NextOption::Wrong;
    }
    let (body, rest) = rest.split_at(size - 2);
    NextOption::OfKind { kind, body, rest }
}

fn next_option(octets: &[u8]) -> NextOption<'_>
    ensures { shown_option result ≡ next_option octets.now }
{
    match octets {
        [] | [0, ..] => NextOption::Ends,
        [1, rest @ ..] => NextOption::Padding(rest),
        [kind, rest @ ..] => sized_option(*kind, rest),
    }
}

// What the options tell together with another; none where it isn't of its kind's length.
fn with_option(options: Options, kind: u8, body: &[u8]) -> Option<Options>
    ensures { option_map shown_options result ≡ with_option kind body.now (shown_options options) }
{
    if kind != MAXIMUM_SEGMENT_SIZE {
        return Some(options);
    }
    if body.len() != 2 {
        return None;
    }
    let mss = Some(BigEndian::read_u16(body));
    Some(Options { mss })
}

/// What the options in these octets tell, of several of a kind the last. None where one can't be read.
pub fn read_options(octets: &[u8]) -> Option<Options>
    ensures { option_map shown_options result ≡ read_options (length octets.now) octets.now no_options }
{
    let mut options = Options { mss: None };
    let mut left = octets;
    loop {
        match next_option(left) {
            NextOption::Ends => return Some(options),
            NextOption::Padding(rest) => left = rest,
            NextOption::OfKind { kind, body, rest } => {
                options = with_option(options, kind, body)?;
                left = rest;
            }
            NextOption::Wrong => return None,
        }
    }
}
