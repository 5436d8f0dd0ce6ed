// The list of a search: the bytes of IDs, eight each, family code first.
ghost use Rattle.std.specs.Prelude.{◌≡◌, ◌+◌, ◌≤◌, length};
ghost use Rattle.std.proofs.Math.Seq.{paste};
ghost use Rattle.search.specs.Search.{bytes_from};

// An ID at a place of the list; the other bytes stay.
pub(crate) fn put(list: &mut [u8], place: usize, id: u64)
    requires { place + 8 ≤ length list.old }
    ensures { list.new ≡ paste list.old place (bytes_from 8 id) 8 }
{
    list[place..place + 8].copy_from_slice(&id.to_le_bytes());
}
