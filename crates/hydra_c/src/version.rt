// The release's number (include/hydra.h).
ghost use Rattle.std.specs.Prelude.{◌≡◌};
ghost use Rattle.host.specs.version.Version.{release};

// The release as one number: 1,002,003 is 1.2.3.
#[unsafe(no_mangle)]
pub extern "C" fn hydra_version() -> u32
    ensures { result ≡ release }
{
    host::version::hydra_version()
}
