// The text that a job prints, put piece by piece into a lent buffer. Each method asks that the buffer has room.
#![tactic(auto)]

ghost use Rattle.std.specs.Prelude.{◌≡◌, ◌+◌, ◌*◌, ◌≤◌, ◌<◌, ◌++◌, length};
ghost use Rattle.io.specs.Digits.{hex_digit_ascii, last_digits};
ghost use Rattle.job_text.specs.Text.{decimal, bits, space, refused_line, done_line, node_line, node_lines};
ghost use Rattle.job_text.specs.Growth.{HasRoom, GrownBy, Near};

// A text that grows in a lent buffer, with the place of its end.
#[derive(Drop)]
pub struct Text<'a> {
    pub bytes: &'a mut [u8],
    pub end: usize,
}

// The ASCII code of a hex digit. It is ours, and not `io::hex`, since the must-fail edit `capital_hex`, which stays, changes
// a digit here.
fn hex_digit(d: u64) -> u8
    requires { d < 16 }
    ensures { result ≡ hex_digit_ascii d }
{
    if d < 10 { 48 + d as u8 } else { 87 + d as u8 }
}

// As many of the last hex digits of a number as there is room for, the last at the end.
fn spell(n: u64, room: &mut [u8])
    ensures { room.new ≡ last_digits 16 (length room.old) n }
{
    let mut rest = n;
    for i in (0..room.len()).rev() {
        room[i] = hex_digit(rest % 16);
        rest /= 16;
    }
}

impl Text<'_> {
    // Puts a part behind the text.
    pub fn append(&mut self, part: &[u8])
        requires { HasRoom (length part.now) self.old }
        ensures { GrownBy part.now self.old self.new }
    {
        let next = self.end + part.len();
        self.bytes[self.end..next].copy_from_slice(part);
        self.end = next;
    }

    // A whole number in decimal.
    pub fn append_decimal(&mut self, n: u64)
        requires { HasRoom 20 self.old }
        ensures { GrownBy (decimal n) self.old self.new }
    {
        let mut digits = [0u8; 20];
        let k = io::decimal(n, &mut digits);
        self.append(&digits[..k]);
    }

    // The bits of a float, as hex digits.
    pub fn append_bits(&mut self, x: f64)
        requires { HasRoom 16 self.old }
        ensures { GrownBy (bits x) self.old self.new }
    {
        let mut digits = [0u8; 16];
        spell(numbers::bits_of(x), &mut digits);
        self.append(&digits);
    }

    // The line of a refusal. It takes the number, as it is written: of the named refusals there are fewer.
    pub fn append_refused(&mut self, number: u32)
        requires { HasRoom 64 self.old }
        ensures { GrownBy (refused_line number) self.old self.new }
    {
        self.append(b"refused ");
        self.append_decimal(number as u64);
        self.append(b"\n");
    }

    // A whole number and a space.
    fn append_count(&mut self, n: u64)
        requires { HasRoom 21 self.old }
        ensures { GrownBy (decimal n ++ space) self.old self.new }
    {
        self.append_decimal(n);
        self.append(b" ");
    }

    // The first line of a solve that is done.
    pub fn append_done(&mut self, pushes: u64, visited: u64, norm: f64)
        requires { HasRoom 64 self.old }
        ensures { GrownBy (done_line pushes visited norm) self.old self.new × Near 64 self.old self.new }
    {
        self.append(b"done ");
        self.append_count(pushes);
        self.append_count(visited);
        self.append_bits(norm);
        self.append(b"\n");
    }

    // The line of a node.
    fn append_node(&mut self, v: u64, estimate: f64, residual: f64)
        requires { HasRoom 64 self.old }
        ensures { GrownBy (node_line v estimate residual) self.old self.new × Near 64 self.old self.new }
    {
        self.append_count(v);
        self.append_bits(estimate);
        self.append(b" ");
        self.append_bits(residual);
        self.append(b"\n");
    }

    // The lines of all nodes.
    pub fn append_nodes(&mut self, estimate: &[f64], residual: &[f64])
        requires { (length residual.now ≡ length estimate.now) × HasRoom (64 * length estimate.now) self.old }
        ensures { GrownBy (node_lines 0 estimate.now residual.now) self.old self.new }
    {
        for v in 0..estimate.len() {
            self.append_node(v as u64, estimate[v], residual[v]);
        }
    }
}
