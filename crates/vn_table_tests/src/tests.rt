//! By crate, as the crates are named without `vn_`, and `loopback` for vn_loop.

mod arp;
mod callout;
mod epair;
mod fixtures;
mod icmp;
mod ifnet;
mod inaddr;
mod jail;
mod loopback;
mod ring;
mod route;
mod sock;
mod sysinit;
