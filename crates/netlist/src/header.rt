// The header of a netlist: M I L O A, the numbers that stand first.
ghost use Rattle.std.specs.Prelude.{◌≡◌, ◌+◌, ◌*◌, get_or};
ghost use Rattle.netlist.specs.Layout.{maximum, input_count, latch_count, output_count, gate_count};
ghost use Rattle.netlist.specs.Valid.{header_ok};

// How many numbers a header has. The latches follow it, two numbers each.
pub const HEADER: usize = 5;

// The most variables, not counting variable 0.
const MAX_VARIABLES: u16 = 4095;

// The most inputs.
const MAX_INPUTS: u16 = 64;

// The most outputs.
const MAX_OUTPUTS: u16 = 2;

#[derive(Clone, Copy)]
pub struct Header {
    pub maximum: u16,
    pub inputs: u16,
    pub latches: u16,
    pub outputs: u16,
    pub gates: u16,
}

// The number at a place, or 0 past the end.
fn number(net: &[u16], place: usize) -> u16
    ensures { result ≡ get_or net.now place 0 }
{
    net.get(place).copied().unwrap_or(0)
}

impl Header {
    // The header of the numbers lent; 0 stands for one that is missing.
    pub fn of(net: &[u16]) -> Header
        ensures maximum { result.maximum ≡ maximum net.now }
        ensures inputs { result.inputs ≡ input_count net.now }
        ensures latches { result.latches ≡ latch_count net.now }
        ensures outputs { result.outputs ≡ output_count net.now }
        ensures gates { result.gates ≡ gate_count net.now }
    {
        Header {
            maximum: number(net, 0),
            inputs: number(net, 1),
            latches: number(net, 2),
            outputs: number(net, 3),
            gates: number(net, 4),
        }
    }

    // The place of the first output's literal.
    pub fn output_at(self) -> usize
        ensures { result ≡ 5 + 2 * self.latches }
    {
        HEADER + 2 * self.latches as usize
    }

    // The place of the first gate's operands.
    pub fn operands_at(self) -> usize
        ensures { result ≡ 5 + 2 * self.latches + self.outputs }
    {
        self.output_at() + self.outputs as usize
    }

    // How many numbers the netlist has.
    pub fn size(self) -> usize
        ensures { result ≡ 5 + 2 * self.latches + self.outputs + 2 * self.gates }
    {
        self.operands_at() + 2 * self.gates as usize
    }

    // Whether the numbers are within their limits.
    pub(crate) fn is_within_limits(self) -> bool
        ensures { result ≡ header_ok self.maximum self.inputs self.latches self.outputs self.gates }
    {
        let sum = self.inputs as u32 + self.latches as u32 + self.gates as u32;
        if self.maximum as u32 != sum {
            return false;
        }
        if self.maximum > MAX_VARIABLES {
            return false;
        }
        if self.inputs < 1 {
            return false;
        }
        if self.inputs > MAX_INPUTS {
            return false;
        }
        if self.outputs < 1 {
            return false;
        }
        self.outputs <= MAX_OUTPUTS
    }
}
