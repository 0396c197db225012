// A set of nodes as bits of words that the caller lends: a node's mark is bit node mod 64 of word
// node div 64.
#![tactic(auto)]

ghost use Rattle.std.specs.Prelude.{true, false, ◌≡◌, ◌*◌, ◌/◌, ◌<◌, ◌≤◌, length};
ghost use Rattle.marks.specs.Marks.{marked, WithMark, all_ones, how_many};

// Whether the node v is marked.
pub fn is_marked(words: &[u64], v: u32) -> bool
    requires { v / 64 < length words.now }
    ensures { result ≡ marked words.now v }
{
    let at = (v / 64) as usize;
    let word = words[at];
    (word >> (v % 64)) & 1 == 1
}

// Marks the node v.
pub fn mark(words: &mut [u64], v: u32)
    requires { v / 64 < length words.old }
    ensures { WithMark true words.old words.new v }
{
    let at = (v / 64) as usize;
    let word = words[at];
    words[at] = word | (1 << (v % 64));
}

// Takes the mark of the node v away. This and `mark` are two functions: one with the mark as a parameter
// would choose between two masks at each call.
pub fn unmark(words: &mut [u64], v: u32)
    requires { v / 64 < length words.old }
    ensures { WithMark false words.old words.new v }
{
    let at = (v / 64) as usize;
    let word = words[at];
    words[at] = word & !(1 << (v % 64));
}

// How many nodes are marked: the ones of all words.
pub fn count(words: &[u64]) -> u32
    requires { length words.now ≤ 1048576 }
    ensures { (result ≡ all_ones words.now) × (result ≡ how_many (64 * length words.now) (marked words.now)) }
{
    words.iter().map(|word| word.count_ones()).sum()
}
