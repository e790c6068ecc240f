// The files of a host in memory, and reading at a place in one.
ghost use Rattle.std.specs.Prelude.{◌≡◌, ◌≤◌, ◌<◌, ◌+◌, ◌++◌, take, drop, min, length, None, vec_len, vec_capacity, MatchOption};
ghost use Rattle.std.specs.FinMap as map;

/// A name and its bytes.
#[derive(Drop)]
pub struct MemFile {
    pub name: String,
    pub bytes: Vec<u8>,
}

/// An index of a file, and how many of its bytes were read.
#[derive(Clone, Copy)]
pub struct Place {
    pub file: usize,
    pub at: usize,
}

ghost use Rattle.hic_io.specs.MemFiles.{files_of, FoundAt, bytes_at};

/// The newest file of this name.
pub(crate) fn find(files: &[MemFile], name: &str) -> Option<usize>
    ensures found { MatchOption result (map.get (files_of files.now) name.now
        ≡ None) (λ i. FoundAt files.now name.now i) }
{
    for (i, file) in files.iter().enumerate() {
        if file.name.as_str() == name {
            return Some(i);
        }
    }
    None
}

/// The bytes from a place on.
pub(crate) fn rest_of(files: &[MemFile], place: Place) -> &[u8]
    requires { place.file < length files.now }
    ensures { result.now ≡ bytes_at files.now place }
{
    let bytes = files[place.file].bytes.as_slice();
    &bytes[place.at.min(bytes.len())..]
}

/// Copies what fits to the front, and says how much that is.
pub(crate) fn fill(left: &[u8], buf: &mut [u8], most: u32) -> usize
    ensures count { result ≡ min (length buf.new) (min (length left.now) most) }
    ensures bytes { buf.new ≡ take result left.now ++ drop result buf.old }
{
    let count = buf.len().min(left.len().min(most as usize));
    buf[..count].copy_from_slice(&left[..count]);
    count
}

/// Appends where there is room.
pub(crate) fn append(to: &mut Vec<u8>, bytes: &[u8])
    requires { vec_len to.old + length bytes.now ≤ vec_capacity to.old }
    ensures items { to.new.items ≡ to.old.items ++ bytes.now }
    ensures len { vec_len to.new ≡ vec_len to.old + length bytes.now }
    ensures capacity { vec_capacity to.old ≤ vec_capacity to.new }
{
    to.extend_from_slice(bytes).unwrap();
}
