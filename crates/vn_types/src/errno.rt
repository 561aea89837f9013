ghost use Rattle.std.specs.Prelude.{◌≡◌};
ghost use Rattle.vn_types.specs.Errors.{errno_name, errno_number};

/// The error numbers that a command can answer (FreeBSD errno(2)).
#[derive(Clone, Copy, PartialEq, Eq)]
pub enum Errno {
    Perm,
    NoEnt,
    Srch,
    NxIo,
    BadF,
    Exist,
    Inval,
    Again,
    DestAddrReq,
    MsgSize,
    AddrInUse,
    AddrNotAvail,
    NetDown,
    NetUnreach,
    NoBufs,
    IsConn,
    ConnRefused,
    HostDown,
    HostUnreach,
}

impl Errno {
    /// The name of errno(2), as `EPERM`.
    pub fn name(self) -> &'static str
        ensures { result.now ≡ errno_name self }
    {
        match self {
            Errno::Perm => "EPERM",
            Errno::NoEnt => "ENOENT",
            Errno::Srch => "ESRCH",
            Errno::NxIo => "ENXIO",
            Errno::BadF => "EBADF",
            Errno::Exist => "EEXIST",
            Errno::Inval => "EINVAL",
            Errno::Again => "EAGAIN",
            Errno::DestAddrReq => "EDESTADDRREQ",
            Errno::MsgSize => "EMSGSIZE",
            Errno::AddrInUse => "EADDRINUSE",
            Errno::AddrNotAvail => "EADDRNOTAVAIL",
            Errno::NetDown => "ENETDOWN",
            Errno::NetUnreach => "ENETUNREACH",
            Errno::NoBufs => "ENOBUFS",
            Errno::IsConn => "EISCONN",
            Errno::ConnRefused => "ECONNREFUSED",
            Errno::HostDown => "EHOSTDOWN",
            Errno::HostUnreach => "EHOSTUNREACH",
        }
    }

    /// The number of errno(2), as 1 for `EPERM`.
    pub fn number(self) -> u8
        ensures { result ≡ errno_number self }
    {
        match self {
            Errno::Perm => 1,
            Errno::NoEnt => 2,
            Errno::Srch => 3,
            Errno::NxIo => 6,
            Errno::BadF => 9,
            Errno::Exist => 17,
            Errno::Inval => 22,
            Errno::Again => 35,
            Errno::DestAddrReq => 39,
            Errno::MsgSize => 40,
            Errno::AddrInUse => 48,
            Errno::AddrNotAvail => 49,
            Errno::NetDown => 50,
            Errno::NetUnreach => 51,
            Errno::NoBufs => 55,
            Errno::IsConn => 56,
            Errno::ConnRefused => 61,
            Errno::HostDown => 64,
            Errno::HostUnreach => 65,
        }
    }
}
