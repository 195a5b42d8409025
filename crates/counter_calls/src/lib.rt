#![tactic(auto)]
// Every counter of a body read straight into a lent array: how many they are, then the counters, then zeros up to 38 numbers. The counters of a version
// lie at fixed offsets: each function reads them in the part of the octets that they take.
ghost use Rattle.std.specs.Prelude.{◌+◌, ◌-◌, ◌*◌, ◌≤◌, ◌≡◌, [], ◌∷◌, ◌++◌, length, replicate};
ghost use Rattle.xdr.specs.Items.{total_width, numbers_at};
ghost use Rattle.sflow.specs.Decode.{decode};
ghost use Rattle.sflow.specs.Grammar.{chosen};
ghost use Rattle.sflow.specs.Datagram.{counters_versions, counters_type, if_counters, vg_counters, vlan_counters};
ghost use Rattle.counter_data.specs.CounterBodies.{counters_found};
ghost use Rattle.numbers.specs.Reports.{filled, filled_behind};
ghost use Rattle.counter_calls.specs.CounterReports.{value_numbers};

// Puts a number behind the first n of an array, if it has room.
fn put(v: u64, n: usize, out: &mut [u64])
    ensures { out.new ≡ filled_behind n (v ∷ []) out.old }
{
    if out.len() <= n {
        return;
    }
    out[n] = v;
}

// Puts so many words, all of them there, behind the first n numbers of an array. Words go from octets to numbers one by one: the reader hands on where the
// next begins.
fn put_words(s: &[u8], first: usize, count: usize, n: usize, out: &mut [u64])
    requires { (first + 4 * count ≤ length s.now) × (n + count ≤ 38) }
    ensures { out.new ≡ filled_behind n (numbers_at s.now first (replicate count 4)) out.old }
{
    let mut at = first;
    for i in 0..count {
        let Ok((v, next)) = xdr::read_word(s, at) else {
            return;
        };
        put(v as u64, n + i, out);
        at = next;
    }
}

// Puts a hyper that is there behind the first n numbers of an array.
fn put_hyper(s: &[u8], at: usize, n: usize, out: &mut [u64])
    requires { at + 8 ≤ length s.now }
    ensures { out.new ≡ filled_behind n (numbers_at s.now at (8 ∷ [])) out.old }
{
    let Ok((v, _)) = xdr::read_hyper(s, at) else {
        return;
    };
    put(v, n, out);
}

// Puts the counters of every interface, which stand in front of those of its kind.
fn put_interface(s: &[u8], at: usize, out: &mut [u64])
    requires { at + 88 ≤ length s.now }
    ensures { out.new ≡ filled_behind 1 (numbers_at s.now at if_counters) out.old }
{
    let part = &s[at..at + 88];
    put_words(part, 0, 2, 1, out);
    put_hyper(part, 8, 3, out);
    put_words(part, 16, 2, 4, out);
    put_hyper(part, 24, 6, out);
    put_words(part, 32, 6, 7, out);
    put_hyper(part, 56, 13, out);
    put_words(part, 64, 6, 14, out);
}

// Puts the counters of a kind that has so many words behind those of every interface: Ethernet and token ring.
fn put_with_words(s: &[u8], at: usize, count: usize, out: &mut [u64])
    requires { (at + 88 + 4 * count ≤ length s.now) × (count ≤ 18) }
    ensures { out.new ≡ filled_behind 1 (numbers_at s.now at (if_counters ++ replicate count 4)) out.old }
{
    put_interface(s, at, out);
    let part = &s[at + 88..at + 88 + 4 * count];
    put_words(part, 0, count, 20, out);
}

// Puts the first eight counters of a 100VG interface, those of what came in.
fn put_vg_in(s: &[u8], at: usize, out: &mut [u64])
    requires { at + 40 ≤ length s.now }
    ensures { out.new ≡ filled_behind 20 (numbers_at s.now at (4 ∷ 8 ∷ 4 ∷ 8 ∷ 4 ∷ 4 ∷ 4 ∷ 4 ∷ [])) out.old }
{
    let part = &s[at..at + 40];
    put_words(part, 0, 1, 20, out);
    put_hyper(part, 4, 21, out);
    put_words(part, 12, 1, 22, out);
    put_hyper(part, 16, 23, out);
    put_words(part, 24, 4, 24, out);
}

// Puts its other six.
fn put_vg_out(s: &[u8], at: usize, out: &mut [u64])
    requires { at + 40 ≤ length s.now }
    ensures { out.new ≡ filled_behind 28 (numbers_at s.now at (4 ∷ 8 ∷ 4 ∷ 8 ∷ 8 ∷ 8 ∷ [])) out.old }
{
    let part = &s[at..at + 40];
    put_words(part, 0, 1, 28, out);
    put_hyper(part, 4, 29, out);
    put_words(part, 12, 1, 30, out);
    put_hyper(part, 16, 31, out);
    put_hyper(part, 24, 32, out);
    put_hyper(part, 32, 33, out);
}

// Puts 100VG counters.
fn put_vg(s: &[u8], at: usize, out: &mut [u64])
    requires { at + 168 ≤ length s.now }
    ensures { out.new ≡ filled_behind 1 (numbers_at s.now at vg_counters) out.old }
{
    put_interface(s, at, out);
    put_vg_in(s, at + 88, out);
    put_vg_out(s, at + 128, out);
}

// Puts VLAN counters.
fn put_vlan(s: &[u8], at: usize, out: &mut [u64])
    requires { at + 28 ≤ length s.now }
    ensures { out.new ≡ filled_behind 1 (numbers_at s.now at vlan_counters) out.old }
{
    let part = &s[at..at + 28];
    put_words(part, 0, 1, 1, out);
    put_hyper(part, 4, 2, out);
    put_words(part, 12, 4, 3, out);
}

// Puts the counters of a version, all of them there. The version is a number, as in the octets, and may be any.
fn put_version(s: &[u8], at: usize, version: u32, out: &mut [u64])
    requires { at + total_width (chosen [] counters_versions version) ≤ length s.now }
    ensures { out.new ≡ filled_behind 1 (numbers_at s.now at (chosen [] counters_versions version)) out.old }
{
    match version {
        1 | 4 | 6 => put_interface(s, at, out),
        2 => put_with_words(s, at, 13, out),
        3 => put_with_words(s, at, 18, out),
        5 => put_vg(s, at, out),
        7 => put_vlan(s, at, out),
        _ => return,
    }
}

// How many counters a version has: none where it is no version.
fn counter_count(version: u32) -> usize
    ensures { (result ≡ length (chosen [] counters_versions version)) × (result ≤ 37) }
{
    match version {
        1 | 4 | 6 => 19,
        2 => 32,
        3 => 37,
        5 => 33,
        7 => 6,
        _ => 0,
    }
}

const ZEROS: [u64; 38] = [0; 38];

// Puts zeros behind the first n numbers of an array, up to 38 numbers.
fn put_zeros(n: usize, out: &mut [u64])
    requires { n ≤ 38 }
    ensures { out.new ≡ filled_behind n (replicate (38 - n) 0) out.old }
{
    numbers::fill_behind(out, n, &ZEROS[n..]);
}

// Puts how many counters a body at its version word has to the front of an array, then every counter, zeros behind them up to 38 numbers;
// zeros alone where the body is refused. One comparison tells whether all counters are there.
pub fn fill_values(s: &[u8], at: usize, out: &mut [u64])
    ensures { out.new ≡ filled (value_numbers (counters_found (decode counters_type s.now at))) out.old }
{
    let Ok((version, first)) = xdr::read_word(s, at) else {
        put_zeros(0, out);
        return;
    };
    if s.len() - first < counter_data::body_size(version) {
        put_zeros(0, out);
        return;
    }
    let count = counter_count(version);
    put(count as u64, 0, out);
    put_version(s, first, version, out);
    put_zeros(1 + count, out);
}
