// The eight models and their limits.
ghost use Rattle.std.specs.Prelude.{◌≡◌};
ghost use Rattle.codec.specs.Models.{model_text, model_named, limits_to, limits_of, model_limits};

use crate::error::Refusal;

#[derive(Clone, Copy)]
pub enum Model {
    Rs00,
    Rs01,
    Rs02,
    Rs03,
    Rs04,
    Rs05,
    Rs05el,
    Rs06,
}

// The largest position, velocity and torque either way, and the largest gains.
#[derive(Clone, Copy)]
pub struct Limits {
    pub position: f32,
    pub velocity: f32,
    pub torque: f32,
    pub kp: f32,
    pub kd: f32,
}

impl Model {
    // The name of a model.
    pub fn name(self) -> &'static [u8]
        ensures { result.now ≡ model_text self }
    {
        match self {
            Model::Rs00 => b"rs-00",
            Model::Rs01 => b"rs-01",
            Model::Rs02 => b"rs-02",
            Model::Rs03 => b"rs-03",
            Model::Rs04 => b"rs-04",
            Model::Rs05 => b"rs-05",
            Model::Rs05el => b"rs-05el",
            Model::Rs06 => b"rs-06",
        }
    }
}

// The model of exactly this name. A name is any bytes. The one name of seven bytes is tested apart,
// so that no other name is compared with it.
#[tactic(auto, using(crate::proofs::Bytes::by_bytes), unfolding(crate::specs::Models::named_among))]
pub fn model_named(name: &[u8]) -> Option<Model>
    ensures { result ≡ model_named name.now }
{
    if name.len() != 7 {
        return match name {
            b"rs-00" => Some(Model::Rs00),
            b"rs-01" => Some(Model::Rs01),
            b"rs-02" => Some(Model::Rs02),
            b"rs-03" => Some(Model::Rs03),
            b"rs-04" => Some(Model::Rs04),
            b"rs-05" => Some(Model::Rs05),
            b"rs-06" => Some(Model::Rs06),
            _ => None,
        };
    }
    match name {
        b"rs-05el" => Some(Model::Rs05el),
        _ => None,
    }
}

// The limits of a model whose position runs to 4π, as each does.
fn limits_to(velocity: f32, torque: f32, kp: f32, kd: f32) -> Limits
    ensures { result ≡ limits_to velocity torque kp kd }
{
    Limits {
        position: 12.566371,
        velocity,
        torque,
        kp,
        kd,
    }
}

// The limits of a model.
pub fn limits_of(model: Model) -> Limits
    ensures { result ≡ limits_of model }
{
    match model {
        Model::Rs00 => limits_to(33.0, 14.0, 500.0, 5.0),
        Model::Rs01 => limits_to(44.0, 17.0, 500.0, 5.0),
        Model::Rs02 => limits_to(44.0, 17.0, 500.0, 5.0),
        Model::Rs03 => limits_to(20.0, 60.0, 5000.0, 100.0),
        Model::Rs04 => limits_to(15.0, 120.0, 5000.0, 100.0),
        Model::Rs05 => limits_to(50.0, 5.5, 500.0, 5.0),
        Model::Rs05el => limits_to(50.0, 6.0, 500.0, 5.0),
        Model::Rs06 => limits_to(50.0, 36.0, 5000.0, 100.0),
    }
}

// The limits of the model of exactly this name; 3 where there is none.
pub fn model_limits(name: &[u8]) -> Result<Limits, Refusal>
    ensures { result ≡ model_limits name.now }
{
    let Some(model) = model_named(name) else {
        return Err(Refusal::UnknownModel);
    };
    Ok(limits_of(model))
}
