ghost use Rattle.std.specs.Prelude.{◌≡◌, ◌≤◌};
ghost use Rattle.spec_link.specs.Fates.{IsWithin, after_words, fate_of, generator_of, ticks_of, words};

use rand_core::utils::NextWord;
use rand_pcg::Lcg64Xsh32;
use spec_link::{Fate, Words};

/// The generator's stream, for every key.
const STREAM: u64 = 1;

/// Of so many packets `lose` are lost and `twice` are delivered twice.
const SHARES: u64 = 16;

/// Draws the fates of packets, one after another.
#[derive(Debug, Drop)]
pub(crate) struct Fates {
    pub generator: Lcg64Xsh32,
    pub lose: u32,
    pub twice: u32,
    /// The most ticks from the sending of a packet to the delivery of a copy.
    pub delay: u32,
}

/// The ticks from the sending to a copy's delivery.
fn ticks_of(delay: u32, drawn: u32) -> u64
    ensures ticks { result ≡ ticks_of delay drawn }
    ensures soon { result ≤ delay }
{
    u64::from(drawn) % (u64::from(delay) + 1)
}

impl Fates {
    #[tactic(auto, unfolding(spec_link::specs::Fates::generator_of))]
    pub fn open(key: u64, lose: u32, twice: u32, delay: u32) -> Fates
        ensures { result ≡ record { generator = generator_of key; lose = lose; twice = twice; delay = delay } }
    {
        Fates {
            generator: Lcg64Xsh32::new(key, STREAM),
            lose,
            twice,
            delay,
        }
    }

    /// The next three words.
    #[tactic(auto, unfolding(spec_link::specs::Fates::words, spec_link::specs::Fates::after_words))]
    fn next_words(&mut self) -> Words
        ensures words { result ≡ words self.old.generator }
        ensures onward { self.new ≡ record self.old { generator = after_words self.old.generator } }
    {
        let fate = self.generator.next_word();
        let first = self.generator.next_word();
        let second = self.generator.next_word();
        Words {
            fate,
            first,
            second,
        }
    }

    fn fate_of(&self, words: &Words) -> Fate
        ensures fate { result ≡ fate_of self.now.lose self.now.twice self.now.delay words.now }
        ensures soon { IsWithin u32.MAX result }
    {
        let share = u64::from(words.fate) % SHARES;
        let lose = u64::from(self.lose);
        let twice = u64::from(self.twice);
        if share < lose {
            Fate::Lost
        } else if share < lose + twice {
            Fate::Twice {
                first: ticks_of(self.delay, words.first),
                second: ticks_of(self.delay, words.second),
            }
        } else {
            Fate::Once {
                after: ticks_of(self.delay, words.first),
            }
        }
    }

    /// The fate of the next packet. It takes three words, whatever it is.
    pub fn draw(&mut self) -> Fate
        ensures fate { result ≡ fate_of self.old.lose self.old.twice self.old.delay (words self.old.generator) }
        ensures onward { self.new ≡ record self.old { generator = after_words self.old.generator } }
        ensures soon { IsWithin u32.MAX result }
    {
        let words = self.next_words();
        self.fate_of(&words)
    }
}
