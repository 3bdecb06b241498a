//! What a word says.
ghost use Rattle.std.specs.Prelude.{◌≡◌, ◌<◌, ◌==◌};
ghost use Rattle.pd_core.specs.Words.{live, sum_in, attached, disposed, off, bit_of};

/// Whether a binding's word has "attached" and not "disposed".
pub fn is_live(word: u64) -> bool
    ensures { result ≡ live word }
{
    word % 2 == 1 && word / 2 % 2 == 0
}

/// Whether a binding's word has "attached".
pub fn is_attached(word: u64) -> bool
    ensures { result ≡ (attached word == 1) }
{
    word % 2 == 1
}

/// Whether a binding's word has "disposed".
pub fn is_disposed(word: u64) -> bool
    ensures { result ≡ (disposed word == 1) }
{
    word / 2 % 2 == 1
}

/// Whether a binding's word has "off".
pub fn is_off(word: u64) -> bool
    ensures { result ≡ (off word == 1) }
{
    word / 4 % 2 == 1
}

/// The sum in a binding's word: the number that the next draw takes, below 2^60.
pub fn sum_of(word: u64) -> u64
    ensures { result ≡ sum_in word }
{
    word / 8
}

/// Whether a node's row word has the bit of the binding at `b` in its row word, or its summary word that of row word `b`.
pub fn has_bit(word: u64, b: u32) -> bool
    requires { b < 64 }
    ensures { result ≡ (bit_of word b == 1) }
{
    (word >> b) & 1 == 1
}
