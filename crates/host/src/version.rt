// The release's number. `VERSION`, the header and the programs have it too; `tests/compare/tests/headers.rs`, `tests/install` and
// `tests/run` hold them to be the same.
ghost use Rattle.std.specs.Prelude.{◌≡◌};
ghost use Rattle.host.specs.version.Version.{release};

const MAJOR: u32 = 2;

const MINOR: u32 = 0;

const PATCH: u32 = 0;

// The release as one number: 1,002,003 is 1.2.3.
pub fn hydra_version() -> u32
    ensures { result ≡ release }
{
    1000000 * MAJOR + (1000 * MINOR + PATCH)
}
