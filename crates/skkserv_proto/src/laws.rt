ghost use Rattle.std.specs.Prelude.{◌≡◌, ◌++◌, ℕ, List, Some};
ghost use Rattle.skkserv_proto.specs.Requests.{requests, first_bad};
ghost use Rattle.skkserv_proto.specs.declared.request.Request.{Request};

/// What a front of bytes asks is the first of what all of them ask. Where a byte of the front is bad, it is the first
/// of all that is, and nothing more is asked.
pub fn requests_of_a_front()
    ensures more { (front rest : List ℕ)
        → (more : List Request) × (requests (front ++ rest) ≡ requests front ++ more) }
    ensures bad { (front rest : List ℕ) (at : ℕ) → first_bad front ≡ Some at
        → (requests (front ++ rest) ≡ requests front) × (first_bad (front ++ rest) ≡ Some at) }
{}
