// The fields of a job's bytes.
#![tactic(auto)]

ghost use Rattle.std.specs.Prelude.{◌≡◌, ◌+◌, ◌*◌, ◌≤◌, ◌<◌, ℕ, List, length, eqb};
ghost use Rattle.numbers.specs.Tables.{tabulate};
ghost use Rattle.job_fields.specs.Fields.{word_at, float_at};
ghost use Rattle.job_fields.specs.Shape.{links_in, sources_in, offsets, limits, shaped};

// The u32 at a place.
pub fn word(bytes: &[u8], at: usize) -> u32
    requires { at + 4 ≤ length bytes.now }
    ensures { result ≡ word_at bytes.now at }
{
    u32::from_le_bytes([bytes[at], bytes[at + 1], bytes[at + 2], bytes[at + 3]])
}

// The f64 at a place.
pub fn float(bytes: &[u8], at: usize) -> f64
    requires { at + 8 ≤ length bytes.now }
    ensures { result ≡ float_at bytes.now at }
{
    numbers::float_of(u64::from_le_bytes([
        bytes[at],
        bytes[at + 1],
        bytes[at + 2],
        bytes[at + 3],
        bytes[at + 4],
        bytes[at + 5],
        bytes[at + 6],
        bytes[at + 7],
    ]))
}

// A type of fields: how many bytes a field has, and which value it is at a place.
pub trait Field: Copy {
    ghost wide: { ℕ };

    ghost value_at: { List ℕ → ℕ → Self };

    fn read(bytes: &[u8], at: usize) -> Self
        requires { at + wide ≤ length bytes.now }
        ensures { result ≡ value_at bytes.now at };
}

impl Field for u32 {
    ghost wide = { 4 };

    ghost value_at = { word_at };

    fn read(bytes: &[u8], at: usize) -> u32 {
        word(bytes, at)
    }
}

impl Field for f64 {
    ghost wide = { 8 };

    ghost value_at = { float_at };

    fn read(bytes: &[u8], at: usize) -> f64 {
        float(bytes, at)
    }
}

// Whether the three offsets are as they have to be.
fn has_offsets(bytes: &[u8]) -> bool
    requires { 56 ≤ length bytes.now }
    ensures { result ≡ offsets bytes.now }
{
    let links = word(bytes, 4) as u64;
    (word(bytes, 12) == 24)
        & ((word(bytes, 16) == 56) & (word(bytes, 20) as u64 == 56 + 16 * links))
}

// Whether the header keeps a job's own limits.
fn has_limits(bytes: &[u8]) -> bool
    requires { 56 ≤ length bytes.now }
    ensures { result ≡ limits bytes.now }
{
    (word(bytes, 0) <= 256) & ((word(bytes, 4) <= 1024) & (word(bytes, 8) <= 16))
}

// Whether the file ends after the sources.
fn has_length(bytes: &[u8]) -> bool
    requires { 56 ≤ length bytes.now }
    ensures { result ≡ eqb (length bytes.now) (56 + 16 * links_in bytes.now + 4 * sources_in bytes.now) }
{
    let links = word(bytes, 4) as u64;
    let sources = word(bytes, 8) as u64;
    bytes.len() as u64 == 56 + 16 * links + 4 * sources
}

// Whether bytes have the shape of a job.
pub fn is_shaped(bytes: &[u8]) -> bool
    ensures { result ≡ shaped bytes.now }
{
    if bytes.len() < 56 {
        return false;
    }
    has_length(bytes) & (has_offsets(bytes) & (has_limits(bytes) & (word(bytes, 52) < 2)))
}

// Fills a list with the fields from a place on, each so many bytes behind the one before. The last lies in the bytes.
pub fn read_fields<F: Field>(bytes: &[u8], at: usize, step: usize, list: &mut [F])
    requires { at + step * length list.old + F.wide ≤ length bytes.now + step }
    ensures { list.new ≡ tabulate (length list.old) (λ i. F.value_at bytes.now (at + step * i)) }
{
    for i in 0..list.len() {
        list[i] = F::read(bytes, at + step * i);
    }
}
