//! Plain types of the product, as they are read and written: addresses, names, paths, error numbers.
//! And the model that all tables kept per stack share.
#![tactic(auto)]

mod address;
mod address_text;
mod asking;
mod boxed;
mod errno;
mod half;
mod half_text;
mod interface;
mod interface_text;
mod label;
mod list;
mod mac_text;
mod memory;
mod name;
mod number;
mod octets;
mod path;
mod path_text;
mod per_stack;
mod text;
mod words;

pub use address::{Ip4, Mac, Prefix};
pub use address_text::{read_ip4, read_prefix, write_ip4, write_prefix};
pub use asking::{Covering, Standing};
pub use boxed::Boxed;
pub use errno::Errno;
pub use half::Half;
pub use half_text::{read_half, write_half};
pub use interface::{HalfId, If, IfName, IfOf, Sid, Side, same_half, same_interface};
pub use interface_text::{read_ifname, write_ifname};
pub use label::Label;
pub use list::List;
pub use mac_text::{read_mac, write_mac};
pub use memory::{NoMemory, Reply};
pub use name::{Name, SockName};
pub use number::read_number;
pub use octets::Octets;
pub use path::{Path, join};
pub use path_text::{MOST_LABELS, read_path, write_path};
pub use per_stack::{Empty, PerStack, make_room};
pub use text::{cut, hex_pair, place_of, put, put_all, put_number, restore};
