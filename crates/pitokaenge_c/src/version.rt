// The version of the C interface, in the name of a function, so that a program does not link with an archive of another version.
ghost use Rattle.std.specs.Prelude.{◌≡◌};

#[unsafe(no_mangle)]
pub extern "C" fn pito_version_6() -> u64
    ensures { result ≡ 6 }
{
    c_version::pito_version_6()
}
