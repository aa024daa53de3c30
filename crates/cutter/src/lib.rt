// The cutter: the datagrams that carry a message, one at a time.
#![tactic(auto)]

ghost use Rattle.std.specs.Prelude.{◌≡◌, ◌*◌, ◌≤◌, length};
ghost use Rattle.wire.specs.Bytes.{bytes};
ghost use Rattle.wire.specs.Overlay.{overlay};
ghost use Rattle.datagram.specs.Limits.{max_payload, max_fragments};
ghost use Rattle.cutter.specs.Limits.{most_size};
ghost use Rattle.cutter.specs.Cut.{Sized, is_small, begins_at_lem, carries, count_of, length_of, says, plan_of, small_bytes, head_bytes, fragment_bytes, datagram_of, CutTo};

use refusals::Refusal;

// The smallest and the largest size of a datagram that a message is cut for.
pub const LEAST_SIZE: usize = 96;

pub const MOST_SIZE: usize = 65507;

// What was cut: the number of datagrams, and the length of the one that was asked for.
#[derive(Clone, Copy, Debug, PartialEq, Eq)]
pub struct Cut {
    pub count: usize,
    pub len: usize,
}

// A message that can be cut: its name, its payload and its sequence, for datagrams of at most m bytes.
#[derive(Clone, Copy)]
struct Message<'a> {
    name: &'a [u8],
    payload: &'a [u8],
    sequence: usize,
    m: usize,
    ghost sized: { Sized (length name.now) m },
}

impl Message<'_> {
    // Whether one small datagram holds it.
    fn is_small(&self) -> bool
        requires { length self.now.payload.now ≤ max_payload }
        ensures { result ≡ is_small (length self.now.name.now) (length self.now.payload.now) self.now.m }
    {
        9 + self.name.len() + self.payload.len() <= self.m
    }

    // Where the data of fragment k begins in the payload.
    // Kept: the bound of k stands in each contract; a type of its own for k would be no plainer.
    fn begins_at(&self, k: usize) -> usize
        requires { k ≤ max_fragments }
        ensures is { result ≡ begins_at_lem (length self.now.name.now) self.now.m k }
        ensures most { result ≤ max_fragments * most_size }
    {
        let (c, m) = (self.name.len(), self.m);
        if k == 0 {
            return 0;
        }
        (m - (21 + c)) + (k - 1) * (m - 20)
    }

    // How much data fragment k can carry.
    fn carried(&self, k: usize) -> usize
        ensures is { result ≡ carries (length self.now.name.now) self.now.m k }
        ensures most { result ≤ self.now.m }
    {
        let (c, m) = (self.name.len(), self.m);
        if k == 0 {
            return m - (21 + c);
        }
        m - 20
    }

    // The number of datagrams.
    fn count(&self) -> usize
        requires { length self.now.payload.now ≤ max_payload }
        ensures { result ≡ count_of (length self.now.name.now) (length self.now.payload.now) self.now.m }
    {
        let (c, p, m) = (self.name.len(), self.payload.len(), self.m);
        if self.is_small() {
            return 1;
        }
        1 + ((p - (m - (21 + c))) + (m - 21)) / (m - 20)
    }

    // The length of datagram k.
    fn length(&self, k: usize) -> usize
        requires { (length self.now.payload.now ≤ max_payload) × (k ≤ max_fragments) }
        ensures { result ≡ length_of (length self.now.name.now) (length self.now.payload.now) self.now.m k }
    {
        let (c, p) = (self.name.len(), self.payload.len());
        if self.is_small() {
            return 9 + c + p;
        }
        let data = self.carried(k).min(p.saturating_sub(self.begins_at(k)));
        if k == 0 {
            return 21 + c + data;
        }
        20 + data
    }

    // The bytes of its small datagram at the start of out.
    fn put_small(&self, out: &mut [u8])
        ensures { out.new ≡ overlay out.old 0 (small_bytes self.now.sequence self.now.name.now self.now.payload.now) }
    {
        put(&mut *out, 0, 4, datagram::SMALL_MAGIC as usize);
        put(&mut *out, 4, 4, self.sequence);
        wire::put_bytes(&mut *out, 8, self.name);
        put(&mut *out, 8 + self.name.len(), 1, 0);
        wire::put_bytes(&mut *out, 9 + self.name.len(), self.payload);
    }

    // The bytes of fragment k of n at the start of out.
    fn put_fragment(&self, out: &mut [u8], k: usize, n: usize)
        requires { k ≤ max_fragments }
        ensures { out.new ≡ overlay out.old 0 (fragment_bytes self.now.sequence self.now.name.now self.now.payload.now self.now.m k n) }
    {
        let begin = self.begins_at(k);
        let data = wire::part(self.payload, begin, self.carried(k));
        put_head(&mut *out, self.sequence, self.payload.len(), begin, k, n);
        if k == 0 {
            wire::put_bytes(&mut *out, 20, self.name);
            put(&mut *out, 20 + self.name.len(), 1, 0);
            wire::put_bytes(&mut *out, 21 + self.name.len(), data);
            return;
        }
        wire::put_bytes(&mut *out, 20, data);
    }

    // The bytes of datagram k of n, small or a fragment, at the start of out.
    fn put_datagram(&self, out: &mut [u8], k: usize, n: usize)
        requires { ((length self.now.payload.now ≤ max_payload) × (k ≤ max_fragments)) × (n ≡ count_of (length self.now.name.now) (length self.now.payload.now) self.now.m) }
        ensures { out.new ≡ overlay out.old 0 (datagram_of self.now.sequence self.now.name.now self.now.payload.now self.now.m k) }
    {
        if self.is_small() {
            self.put_small(&mut *out);
            return;
        }
        self.put_fragment(&mut *out, k, n);
    }

    // What the lengths say: the number of datagrams and the length of the one asked for, or a refusal.
    fn plan(&self, index: usize, room: usize) -> Result<Cut, Refusal>
        ensures { says result ≡ plan_of (length self.now.name.now) (length self.now.payload.now) self.now.m index room }
    {
        if datagram::MAX_PAYLOAD < self.payload.len() {
            return Err(Refusal::PayloadTooLarge);
        }
        let n = self.count();
        if (datagram::MAX_FRAGMENTS as usize) < n {
            return Err(Refusal::TooManyFragments);
        }
        if n <= index {
            return Err(Refusal::NoSuchDatagram);
        }
        let len = self.length(index);
        if room < len {
            return Err(Refusal::NoRoom);
        }
        Ok(Cut { count: n, len: len })
    }
}

// The low k bytes of v at a place.
fn put(out: &mut [u8], at: usize, k: usize, v: usize)
    requires { k ≤ 8 }
    ensures { out.new ≡ overlay out.old at (bytes k v) }
{
    wire::put_number(out, at, k, v as u64);
}

// The 20 bytes of a fragment's header at the start of out.
fn put_head(
    out: &mut [u8],
    sequence: usize,
    size: usize,
    offset: usize,
    number: usize,
    count: usize,
)
    ensures { out.new ≡ overlay out.old 0 (head_bytes sequence size offset number count) }
{
    put(&mut *out, 0, 4, datagram::FRAGMENT_MAGIC as usize);
    put(&mut *out, 4, 4, sequence);
    put(&mut *out, 8, 4, size);
    put(&mut *out, 12, 4, offset);
    put(&mut *out, 16, 2, number);
    put(&mut *out, 18, 2, count);
}

// Writes datagram `index` of a message at the start of out, for datagrams of at most m bytes.
pub fn cut_datagram(
    name: &[u8],
    payload: &[u8],
    sequence: u32,
    m: usize,
    index: usize,
    out: &mut [u8],
) -> Result<Cut, Refusal>
    ensures { CutTo name.now payload.now sequence m index out.old result out.new }
{
    if m < LEAST_SIZE {
        return Err(Refusal::DatagramSize);
    }
    if MOST_SIZE < m {
        return Err(Refusal::DatagramSize);
    }
    if !names::good_name(name) {
        return Err(Refusal::BadName);
    }
    let message = Message {
        name: name,
        payload: payload,
        sequence: sequence as usize,
        m: m,
    };
    let cut = message.plan(index, out.len())?;
    message.put_datagram(&mut *out, index, cut.count);
    Ok(cut)
}
