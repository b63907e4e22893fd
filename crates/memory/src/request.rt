// Requests by the types that they are made with.
ghost use Rattle.std.specs.Prelude.{◌≡◌};
ghost use Rattle.std.proofs.Common.{rules};
ghost use Rattle.memory.specs.declared.access.Request.{Request};
ghost use Rattle.memory.specs.declared.access.Request.TheVariants.{Fetch, Data};

use crate::access::{Access, Request};

// A type whose values are requests: all that a kind of memory can be asked.
pub trait AsRequest: Copy {
    ghost request: { Self → Request };

    fn as_request(self) -> Request
        ensures { result ≡ request self };

    // Different values are different requests.
    ghost distinct: { (x y : Self) → request x ≡ request y → x ≡ y };
}

// A program memory is asked fetches, by their address.
impl AsRequest for u32 {
    ghost request = { Fetch };

    fn as_request(self) -> Request {
        Request::Fetch(self)
    }

    ghost distinct = { Prim.search rules };
}

// A data memory is asked loads and stores.
impl AsRequest for Access {
    ghost request = { Data };

    fn as_request(self) -> Request {
        Request::Data(self)
    }

    ghost distinct = { Prim.search rules };
}
