//! What the bytes of a saved run tell, as far as no thread is looked at.

ghost use Rattle.std.specs.Prelude.{◌≡◌};
ghost use Rattle.hex.specs.Hex.{encode_lower};
ghost use Rattle.serde_json.specs.View.{view};
ghost use Rattle.saved_parts.specs.Telling.{told_of};
ghost use Rattle.project_check.specs.Loaded.{basis_of};
ghost use Rattle.saved_spec.specs.Refusals as refusals;
ghost use Rattle.run_save.specs.Steps.{IsOf, Keeps, Parses, Shapes, Tells};

use json_shapes::Fault;
use project_check::Project;
use project_json::Text;
use saved_checks::broken_rule;
use saved_parts::ToldRun;
use saved_reading::read_run;
use saved_spec::SaveRefusal;
use serde_json::Value;
use std::alloc::Global;

// The version of the format.
const VERSION: u64 = 1;

// The value of a JSON text.
fn parse(alloc: Global, bytes: &[u8]) -> Result<Value, SaveRefusal>
    ensures { Parses view bytes.now result }
{
    match Value::from_slice(alloc, bytes) {
        Ok(value) => Ok(value),
        Err(error) => {
            if error.is_memory() {
                Err(SaveRefusal::NoMemory)
            } else {
                Err(SaveRefusal::Json)
            }
        }
    }
}

// The version of an object, where it is a whole number other than the one that is read.
fn other_version(value: &Value) -> Option<u64>
    ensures { result ≡ refusals.other_version (view value.now) }
{
    let n = value.get("version")?.as_u64()?;
    if n == VERSION { None } else { Some(n) }
}

// What a value tells.
fn shaped(alloc: Global, value: &Value) -> Result<ToldRun, SaveRefusal>
    ensures { Shapes (view value.now) result }
{
    match read_run(alloc, value) {
        Ok(told) => Ok(told),
        Err(Fault::Shape { path }) => Err(SaveRefusal::Shape { path }),
        Err(Fault::NoMemory) => Err(SaveRefusal::NoMemory),
    }
}

// Whether a run is of the project file with a digest.
fn is_of(alloc: Global, digest: &[u8; 32], kept: &Text) -> Result<(), SaveRefusal>
    ensures { IsOf kept.now (encode_lower digest.now) result }
{
    let given = hex::encode(alloc, digest)?;
    if kept.as_str() == given.as_str() {
        return Ok(());
    }
    Err(SaveRefusal::OtherProject {
        kept: Text::from_str(alloc, kept.as_str())?,
        given: Text::from_string(given),
    })
}

// Whether a run breaks no rule.
fn keep_rules(alloc: Global, project: &Project, told: &ToldRun) -> Result<(), SaveRefusal>
    ensures { Keeps (basis_of project.now) (told_of told.now) result }
{
    match broken_rule(alloc, project, told)? {
        None => Ok(()),
        Some(member) => Err(SaveRefusal::BadReference {
            path: Text::from_str(alloc, member)?,
        }),
    }
}

// The run that bytes tell, where it is of the project and breaks no rule; else the first refusal.
pub(crate) fn told_by(
    alloc: Global,
    project: &Project,
    digest: &[u8; 32],
    bytes: &[u8],
) -> Result<ToldRun, SaveRefusal>
    ensures { Tells (basis_of project.now) digest.now bytes.now result }
{
    let value = parse(alloc, bytes)?;
    let told = match other_version(&value) {
        Some(n) => return Err(SaveRefusal::Version { n }),
        None => shaped(alloc, &value)?,
    };
    is_of(alloc, digest, &told.project)?;
    keep_rules(alloc, project, &told)?;
    Ok(told)
}
