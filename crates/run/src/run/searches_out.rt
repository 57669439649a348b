// The searches of a run, as bits of one number: search v is out where bit v is set.
ghost use Rattle.std.specs.Prelude.{◌≡◌, ◌<◌, ◌≤◌};
ghost use Rattle.run.specs.Worlds.{all_out as all_of, come_home as without};

// The first searches are out, as many as head 1 has setups.
pub(crate) fn all_out(count: u8) -> u8
    requires { count ≤ 8 }
    ensures { result ≡ all_of count }
{
    (2u16.pow(u32::from(count)) - 1) as u8
}

// A search comes home.
pub(crate) fn come_home(out: u8, search: u8) -> u8
    requires { search < 8 }
    ensures { result ≡ without out search }
{
    out.saturating_sub(2u8.pow(u32::from(search)))
}
