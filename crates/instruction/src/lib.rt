// An instruction word taken apart: its fields, its class, the register source and the address (report, tables 1 to 4; document 01).
#![tactic(auto)]

mod class;

ghost use Rattle.std.specs.Prelude.{◌≡◌, ◌^◌, ◌<◌, slice_index};
ghost use Rattle.instruction.specs.Sources.{register_of, address_of};

pub use class::ClassTable;

// The fields of a word (table 1). csf stands in its class.
#[derive(Clone, Copy, Debug, PartialEq, Eq)]
pub struct Fields {
    pub rsf: u32,
    pub msf: u32,
    pub dsf: u32,
    pub fsf: u32,
    pub addr: u32,
    pub ghost rsf_lt: { rsf < 4 },
    pub ghost msf_lt: { msf < 4 },
    pub ghost addr_lt: { addr < 2 ^ 20 },
}

impl Fields {
    ghost use Rattle.instruction.specs.Fields.{Fielded};

    // The fields of a word.
    pub fn of_word(w: u32) -> Fields
        ensures { Fielded w result }
    {
        Fields {
            rsf: w / 0x4000_0000 % 4,
            msf: w / 0x1000_0000 % 4,
            dsf: w / 0x0200_0000 % 8,
            fsf: w / 0x0010_0000 % 16,
            addr: w % 0x0010_0000,
        }
    }

    // R by rsf.
    pub fn register(self, sources: &[u32; 4]) -> u32
        requires { slice_index sources.now 3 < 2 ^ 20 }
        ensures { result ≡ register_of self.rsf sources.now }
    {
        register(self.rsf, sources)
    }

    // The address by msf.
    pub fn address(self, sources: &[u32; 4]) -> u32
        requires { (slice_index sources.now 1 < 2 ^ 32) × (slice_index sources.now 2 < 2 ^ 32) }
        ensures { result ≡ address_of self.msf self.addr sources.now }
    {
        address(self.msf, self.addr, sources)
    }
}

// R by rsf (table 2). The sources are A, X, Y and N, which is P + 1, in the order of rsf.
pub fn register(rsf: u32, sources: &[u32; 4]) -> u32
    requires { (rsf < 4) × (slice_index sources.now 3 < 2 ^ 20) }
    ensures { result ≡ register_of rsf sources.now }
{
    let k = rsf as usize;
    sources[k]
}

// The address by msf (table 3), all 32 bits of it: 2 adds X, the second of the sources, and 3 adds Y, the third.
pub fn address(msf: u32, addr: u32, sources: &[u32; 4]) -> u32
    requires { (msf < 4) × (addr < 2 ^ 20) × (slice_index sources.now 1 < 2 ^ 32) × (slice_index sources.now 2 < 2 ^ 32) }
    ensures { result ≡ address_of msf addr sources.now }
{
    if msf < 2 {
        return addr;
    }
    let k = (msf - 1) as usize;
    addr.wrapping_add(sources[k])
}
