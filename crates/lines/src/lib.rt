// The listing's lines (rules 14.2 to 14.6), put into a buffer where they fit.
#![tactic(auto)]

ghost use Rattle.std.specs.Prelude.{◌≡◌, ◌&&◌, [], ◌∷◌, ◌++◌, ◌+◌, ◌*◌, ◌≤◌, ◌<◌, ℕ, List, Option, length, leb};
ghost use Rattle.std.specs.Fn.{FnOnceReturnsAtMut};
ghost use Rattle.run.specs.Run.{stations};
ghost use Rattle.lines.specs.Text.{
  has_room,
  RoomFor,
  Put,
  PutIf,
  Writes,
  Within,
  IsShort,
  IsLine,
  ten,
  digit,
  spelled,
  most_digits,
  number,
  entry,
  entries,
  part,
  name,
  limits,
  setup_line,
  round_line,
  answer_line,
  end_line,
  refusal_line,
  entry_room,
  limits_room,
  answer_room,
  longest,
};

use limits::{Setup, is_u};
use run::{Reply, Run, reply};

const TEN: u32 = 10;

const DIGITS: usize = 10; // the most that a number of 32 bits has

const ENTRY: usize = 1 + DIGITS; // a space and a number

const WORDS: usize = 17; // ` hold`, ` vote` and ` decide`

// No line is longer: this is a round's of all stations.
pub const LINE: usize = DIGITS + WORDS + 3 * ENTRY * Run::STATIONS + 1;

fn digit(d: u32) -> u8
    requires { d < ten }
    ensures { result ≡ digit d }
{
    b'0' + d as u8
}

// A number in decimal at the start of a buffer, no more than its last `most` digits: answers how many. It takes no pen,
// whose place would then pass through memory for each digit.
fn put_digits(out: &mut [u8], x: u32, most: usize) -> usize
    requires { most ≤ length out.old }
    ensures put { Put out.old 0 (spelled most x) result out.new }
    ensures upper_bound { result ≤ most }
{
    if most == 0 {
        return 0;
    }
    if x < TEN {
        out[0] = digit(x);
        return 1;
    }
    let end = put_digits(out, x / TEN, most - 1);
    out[end] = digit(x % TEN);
    end + 1
}

// The letter of the algorithm.
fn name(s: Setup) -> u8
    ensures { result ≡ name s }
{
    if is_u(s) { b'U' } else { b'A' }
}

// A place in a buffer, which goes on behind what is put there. Each method asks for the room that its text may take.
#[derive(Drop)]
struct Pen<'a> {
    out: &'a mut [u8],
    at: usize,
}

impl Pen<'_> {
    fn byte(&mut self, byte: u8)
        requires { RoomFor self.old 1 }
        ensures put { Writes self.old (byte ∷ []) self.new }
        ensures within { Within self.old 1 self.new }
    {
        self.out[self.at] = byte;
        self.at += 1;
    }

    fn text(&mut self, text: &[u8])
        requires { RoomFor self.old (length text.now) }
        ensures put { Writes self.old text.now self.new }
        ensures within { Within self.old (length text.now) self.new }
    {
        let end = self.at + text.len();
        self.out[self.at..end].copy_from_slice(text);
        self.at = end;
    }

    fn number(&mut self, x: u32)
        requires { RoomFor self.old most_digits }
        ensures put { Writes self.old (number x) self.new }
        ensures within { Within self.old most_digits self.new }
    {
        let end = put_digits(&mut self.out[self.at..], x, DIGITS);
        self.at += end;
    }

    // A word and the number after it.
    fn word(&mut self, word: &[u8], x: u32)
        requires { RoomFor self.old (length word.now + most_digits) }
        ensures put { Writes self.old (word.now ++ number x) self.new }
        ensures within { Within self.old (length word.now + most_digits) self.new }
    {
        self.text(word);
        self.number(x);
    }

    // ` 7`, or a sign where there is no number.
    fn entry(&mut self, x: Option<u32>, sign: u8)
        requires { RoomFor self.old entry_room }
        ensures put { Writes self.old (entry x sign) self.new }
        ensures within { Within self.old entry_room self.new }
    {
        self.byte(b' ');
        match x {
            Some(x) => self.number(x),
            None => self.byte(sign),
        }
    }

    // An entry for each of n stations.
    fn entries<F: Fn(usize) -> Option<u32>>(&mut self, n: u8, of: F, sign: u8)
        requires room { RoomFor self.old (entry_room * n) }
        requires calls { (i : ℕ) → i < n → F.pre of i }
        ensures put { (f : ℕ → Option ℕ) → ((i : ℕ) (x : Option ℕ) → i < n → F.post of i x → x ≡ f i)
            → Writes self.old (entries n f sign) self.new }
        ensures within { Within self.old (entry_room * n) self.new }
    {
        for i in 0..n as usize {
            self.entry(of(i), sign);
        }
    }

    // A word, and an entry for each of n stations.
    fn part<F: Fn(usize) -> Option<u32>>(&mut self, word: &[u8], n: u8, of: F, sign: u8)
        requires room { RoomFor self.old (length word.now + entry_room * n) }
        requires calls { (i : ℕ) → i < n → F.pre of i }
        ensures put { (f : ℕ → Option ℕ) → ((i : ℕ) (x : Option ℕ) → i < n → F.post of i x → x ≡ f i)
            → Writes self.old (part word.now n f sign) self.new }
        ensures within { Within self.old (length word.now + entry_room * n) self.new }
    {
        self.text(word);
        self.entries(n, of, sign);
    }

    // ` T=2 E=2 alpha=0`
    fn limits(&mut self, s: Setup)
        requires { RoomFor self.old limits_room }
        ensures put { Writes self.old (limits s) self.new }
        ensures within { Within self.old limits_room self.new }
    {
        self.word(b" T=", s.t as u32);
        self.word(b" E=", s.e as u32);
        self.word(b" alpha=", s.alpha as u32);
    }

    // `A n=3 T=2 E=2 alpha=0`
    fn setup(&mut self, s: Setup)
        requires { RoomFor self.old longest }
        ensures put { Writes self.old (setup_line s) self.new }
        ensures within { Within self.old longest self.new }
    {
        self.byte(name(s));
        self.word(b" n=", s.n as u32);
        self.limits(s);
        self.byte(b'\n');
    }

    // `2 hold 5 5 5 vote ? ? ? decide 5 5 -`: the run after a round, and the values for which the decide rule fired in
    // it.
    fn round(&mut self, run: &Run, fired: &[Option<u32>; Run::STATIONS])
        requires { (run.now.setup.n ≤ stations) × RoomFor self.old longest }
        ensures put { Writes self.old (round_line run.now fired.now) self.new }
        ensures within { Within self.old longest self.new }
    {
        let n = run.setup.n;
        self.number(run.clock);
        self.part(b" hold", n, |i| Some(run.estimates[i]), b'?');
        self.part(b" vote", n, |i| run.voted[i].then_some(run.votes[i]), b'?');
        self.part(b" decide", n, |i| fired[i], b'-');
        self.byte(b'\n');
    }

    // A word, and `0 at 0`, the end of the listing's last line.
    fn answer(&mut self, word: &[u8], reply: Reply)
        requires { RoomFor self.old (length word.now + answer_room) }
        ensures put { Writes self.old (answer_line word.now reply) self.new }
        ensures within { Within self.old (length word.now + answer_room) self.new }
    {
        self.word(word, reply::number(reply));
        self.word(b" at ", reply::place(reply));
        self.byte(b'\n');
    }

    // `end rounds 2 answer 0 at 0`
    fn end(&mut self, rounds: u32, reply: Reply)
        requires { RoomFor self.old longest }
        ensures put { Writes self.old (end_line rounds reply) self.new }
        ensures within { Within self.old longest self.new }
    {
        self.word(b"end rounds ", rounds);
        self.answer(b" answer ", reply);
    }

    // `open refused 4 at 0`
    fn refusal(&mut self, reply: Reply)
        requires { RoomFor self.old longest }
        ensures put { Writes self.old (refusal_line reply) self.new }
        ensures within { Within self.old longest self.new }
    {
        self.answer(b"open refused ", reply);
    }
}

// Whether a line fits behind `at` in a buffer of so many bytes.
fn has_room(at: usize, room: usize) -> bool
    ensures { result ≡ has_room at room }
{
    LINE <= room && at <= room - LINE
}

// Puts a line where one fits, and else nothing. The place stays beside the buffer here and below: `PutIf` speaks of both,
// and the caller goes on with the place.
fn put_line<F: FnOnce(&mut Pen)>(out: &mut [u8], at: usize, line: F) -> usize
    requires calls { (p : _) → RoomFor p.now longest → F.pre line p }
    requires short { IsShort (λ p q. FnOnceReturnsAtMut F.FnOnce line p tt q) }
    ensures put_if { (text : List ℕ) → IsLine (λ p q. FnOnceReturnsAtMut F.FnOnce line p tt q) text
        → PutIf (has_room at (length out.old)) out.old at text result out.new }
    ensures upper_bound { result ≤ at + longest }
{
    if !has_room(at, out.len()) {
        return at;
    }
    let mut pen = Pen { out, at };
    line(&mut pen);
    pen.at
}

// The setup's line.
pub fn put_setup(out: &mut [u8], at: usize, s: Setup) -> usize
    ensures put_if { PutIf (has_room at (length out.old)) out.old at (setup_line s) result
        out.new }
    ensures upper_bound { result ≤ at + longest }
{
    put_line(out, at, |line| line.setup(s))
}

// The line of an accepted round, of a run with no more stations than a run may have.
pub fn put_round(out: &mut [u8], at: usize, run: Run, fired: [Option<u32>; Run::STATIONS]) -> usize
    ensures put_if { PutIf (leb run.setup.n stations && has_room at (length out.old))
        out.old at (round_line run fired) result out.new }
    ensures upper_bound { result ≤ at + longest }
{
    if run.setup.n as usize > Run::STATIONS {
        return at;
    }
    put_line(out, at, |line| line.round(&run, &fired))
}

// The last line.
pub fn put_end(out: &mut [u8], at: usize, rounds: u32, reply: Reply) -> usize
    ensures put_if { PutIf (has_room at (length out.old)) out.old at (end_line rounds reply) result
        out.new }
    ensures upper_bound { result ≤ at + longest }
{
    put_line(out, at, |line| line.end(rounds, reply))
}

// The line of a refused opening.
pub fn put_refusal(out: &mut [u8], at: usize, reply: Reply) -> usize
    ensures put_if { PutIf (has_room at (length out.old)) out.old at (refusal_line reply) result
        out.new }
    ensures upper_bound { result ≤ at + longest }
{
    put_line(out, at, |line| line.refusal(reply))
}
