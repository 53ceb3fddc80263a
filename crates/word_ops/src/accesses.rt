// What loads read and stores leave.
ghost use Rattle.std.specs.Prelude.{◌≡◌, ◌≢◌, ◌<◌, ◌≤◌, ◌/◌, OnOk, OnErr};
ghost use Rattle.word_ops.specs.Memory as memory;

use crate::arithmetic::{addq, sign_extended};
use crate::bitwise::bis;
use crate::bytes::{ext_low, ins_low, msk_low};
use crate::laws::memories_hold_words;
use crate::memory::Mem;
use crate::sorts::Access;
use items::NoMemory;

// The word with the low `width` bytes of `value` put at the offset of the address.
fn with_bytes(width: u32, word: u64, address: u64, value: u64) -> u64
    requires { width ≤ 8 }
    ensures { result ≡ memory.with_bytes width word address value }
{
    bis(
        msk_low(width, word, address),
        ins_low(width, value, address),
    )
}

impl Access {
    /// The power of 2 of which an address has to be a multiple, so that an instruction with this access doesn't trap
    /// there: its exponent, 0 to 2.
    pub fn alignment(self) -> u8
        ensures value { result ≡ memory.alignment self }
        ensures below { result < 3 }
    {
        match self {
            Access::Quad | Access::Byte => 0,
            Access::Word => 1,
            Access::Long => 2,
        }
    }

    /// What is read at the address.
    #[tactic(auto, unfolding(crate::specs::Memory::loaded, crate::specs::Memory::select))]
    pub fn load(self, from: &Mem, address: u64) -> u64
        ensures { result ≡ memory.loaded self from.now address }
    {
        self.read(from.get(address / 8), address)
    }

    /// Writes the value at the address. Only where the word there isn't 0 afterwards can memory of the host be lacking.
    #[tactic(auto, unfolding(crate::specs::Memory::stored, crate::specs::Memory::store, crate::specs::Memory::select))]
    pub fn store(self, into: &mut Mem, address: u64, value: u64) -> Result<(), NoMemory>
        ensures was_memory { memory.IsMemory into.old }
        ensures is_memory { memory.IsMemory into.new }
        ensures ok { OnOk result (into.new ≡ memory.stored self into.old address value) }
        ensures err { OnErr result (into.new ≡ into.old) }
        ensures taken { OnErr result (memory.word_at (memory.stored self into.old address value) (address / 8) ≢ 0) }
    {
        memories_hold_words();
        let word = self.written(into.get(address / 8), address, value);
        into.set(address / 8, word)
    }

    // What is read at the address, of the word at its place.
    fn read(self, word: u64, address: u64) -> u64
        ensures { result ≡ memory.read_in self word address }
    {
        match self {
            Access::Quad => word,
            Access::Byte => ext_low(1, word, address),
            Access::Word => ext_low(2, word, address),
            Access::Long => sign_extended(32, addq(ext_low(4, word, address), 0)),
        }
    }

    // The word at the place of the address, once the value is written.
    fn written(self, word: u64, address: u64, value: u64) -> u64
        ensures { result ≡ memory.written_in self word address value }
    {
        match self {
            Access::Quad => value,
            Access::Byte => with_bytes(1, word, address, value),
            Access::Word => with_bytes(2, word, address, value),
            Access::Long => with_bytes(4, word, address, value),
        }
    }
}
