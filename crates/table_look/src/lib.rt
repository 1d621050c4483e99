// Finds the table in a stored file, and writes its listing. The buffer has room for every listing (table_show/proofs/Shown.antt), and nothing is written
// before the whole listing stands in it.
#![tactic(auto)]

ghost use Rattle.std.specs.Prelude.{◌≡◌, OnOk};
ghost use Rattle.std.specs.Io.KnownBytes.{Appends};
ghost use Rattle.table_listing.specs.TableListing.{table_listing};
ghost use Rattle.table_look.specs.Stored.{table_in};

use anyhow::Result;
use std::io::Write;

// More than a stored table has, so that another length is told too.
pub const ROOM: usize = 65536;

// The bytes that the hub of the examples (rust/kevdarosh/examples/common/store.rs) puts before a table.
const HEAD: usize = 40;

// The table in a file: what stands behind a hub's head, else all of it. What the head says, its checksum too, is not asked.
pub fn table_in(file: &[u8]) -> &[u8]
    ensures { result.now ≡ table_in file.now }
{
    if file.len() < HEAD {
        return file;
    }
    if fields::starts_with(b"kevhub 1", file) {
        return &file[HEAD..];
    }
    file
}

// Writes the listing.
pub fn show<W: Write>(out: &mut W, table: &[u8]) -> Result<()>
    ensures { OnOk result (Appends (W.contents out.old) (W.contents out.new) (table_listing table.now)) }
{
    let mut output = [0u8; table_show::LONGEST];
    let listed = table_show::list_table(table, &mut output);
    match listed {
        Ok(n) => streams::put(out, &output[..n]),
        Err(_) => unreachable!(),
    }
}
