//! The identifier of a transaction branch in the form that X/Open XA defines.

ghost use Rattle.std.specs.Prelude.{◌≡◌, ◌≤◌, length};
ghost use Rattle.vdb_model.specs.XaForm.{xa_data, xa_format};

use crate::source::Xid;
use vdb_base::Text;

/// An identifier as X/Open XA lays it out (CAE specification C193, the structure `XID`).
#[derive(Clone, Copy, Debug, PartialEq, Eq)]
pub struct XidBytes {
    /// Whose identifiers these are: `VDB1` in bytes, the highest first.
    pub format: u32,
    /// How many bytes of the data name the transaction.
    pub gtrid_length: u32,
    /// How many bytes behind those name the branch in it.
    pub bqual_length: u32,
    /// Both parts, and zeros.
    pub data: [u8; 128],
}

/// The identifier of the branch that a server has in a transaction. The server's name has at most 64 bytes, as in every
/// catalog; it is the part that tells the branches of one transaction from each other.
pub fn xid_bytes(x: Xid, server: &Text) -> XidBytes
    requires name { 1 ≤ length server.now }
    requires short { length server.now ≤ 64 }
    ensures format { result.format ≡ xa_format }
    ensures global { result.gtrid_length ≡ 16 }
    ensures branch { result.bqual_length ≡ length server.now }
    ensures data { result.data ≡ xa_data x server.now }
{
    let mut data = [0u8; 128];
    let name = server.as_bytes();
    data[..8].copy_from_slice(&x.epoch.to_be_bytes());
    data[8..16].copy_from_slice(&x.seq.to_be_bytes());
    data[16..16 + name.len()].copy_from_slice(name);
    XidBytes {
        format: 0x5644_4231,
        gtrid_length: 16,
        bqual_length: name.len() as u32,
        data,
    }
}
