// Which samples are rendered, on which channels.
ghost use Rattle.std.specs.Prelude.{◌≡◌, ◌≤◌};
ghost use Rattle.list_terms.specs.Accepted as accepted;
ghost use Rattle.markfile.specs.Range as marks;
ghost use Rattle.rendering.specs.Rendering.{HaveChannels, values_of};

use crate::Options;
use adlmodel::Project;
use markfile::RunRange;

/// What is rendered of a project.
pub fn span_of(project: &Project, options: &Options) -> RunRange
    requires { HaveChannels options.now }
    ensures range { marks.range_of result ≡ accepted.range_of project.now (values_of options.now) }
    ensures sound { (1 ≤ result.channels) × (result.channels ≤ 64) }
{
    RunRange {
        from: options.from.unwrap_or_else(|| project.first_in()),
        to: options.to.unwrap_or_else(|| project.last_out()),
        channels: options.channels.unwrap_or_else(|| project.last_channel()),
        depth: options.depth,
    }
}
