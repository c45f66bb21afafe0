// What a result or a place is of: a local, any handle, a buffer, an identity.
ghost use Rattle.std.specs.Prelude.{◌≡◌};
ghost use Rattle.facts.specs.Results.{is_local_result, is_handle_result, is_buffer_result, is_handle_place, is_buffer_place, is_identity_place};

use super::{Place, Result};

pub fn is_local_result(k: Result) -> bool
    ensures { result ≡ is_local_result k }
{
    matches!(k, Result::Local)
}

pub fn is_handle_result(k: Result) -> bool
    ensures { result ≡ is_handle_result k }
{
    matches!(k, Result::Local | Result::Global | Result::Weak)
}

pub fn is_buffer_result(k: Result) -> bool
    ensures { result ≡ is_buffer_result k }
{
    matches!(k, Result::Buffer)
}

pub fn is_handle_place(p: Place) -> bool
    ensures { result ≡ is_handle_place p }
{
    !matches!(p, Place::Identity | Place::Buffer | Place::Unused)
}

pub fn is_buffer_place(p: Place) -> bool
    ensures { result ≡ is_buffer_place p }
{
    matches!(p, Place::Buffer)
}

pub fn is_identity_place(p: Place) -> bool
    ensures { result ≡ is_identity_place p }
{
    matches!(p, Place::Identity)
}
