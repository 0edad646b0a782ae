// From a job's bytes to its words.
ghost use Rattle.std.specs.Prelude.{◌≡◌, ◌*◌, ◌≤◌, length};
ghost use Rattle.model.specs.Host.{words_of};
ghost use Rattle.cells.specs.Table.{put};

// The whole words of bytes, over the front of the array lent; how many they are.
pub fn words_of_bytes(bytes: &[u8], words: &mut [u32]) -> usize
    requires { length bytes.now ≤ 4 * length words.old }
    ensures count { result ≡ length (words_of bytes.now) }
    ensures inside { result ≤ length words.new }
    ensures words { words.new ≡ put words.old 0 (words_of bytes.now) }
{
    for (i, four) in bytes.chunks_exact(4).enumerate() {
        words[i] = u32::from_le_bytes([four[0], four[1], four[2], four[3]]);
    }
    bytes.len() / 4
}
