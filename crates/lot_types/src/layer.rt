//! Layers of compositions.

use crate::duplicate::{copy_three, copy_two};
use crate::{Duplicate, Fx, Item, Mask, Matte, Memory, Name, Prop, Rgb, Seq, Time, Transform};

/// What a layer shows.
#[derive(Drop)]
pub enum LayerKind {
    /// A composition of the assets, clipped to a rectangle.
    Precomp {
        /// The name of the asset.
        ref_id: Name,
        /// The width of the rectangle, in millionths of a pixel.
        w: Fx,
        /// The height of the rectangle, in millionths of a pixel.
        h: Fx,
        /// The time of the layer at which the composition is at 0.
        st: Time,
        /// How many frames of the layer one frame of the composition takes, in millionths.
        sr: Fx,
        /// The time of the composition in seconds, in millionths, in place of what `st` and `sr` give.
        tm: Option<Prop<Fx>>,
    },
    /// A rectangle of one color, whose left upper corner is the origin.
    Solid {
        /// The width, in millionths of a pixel.
        w: Fx,
        /// The height, in millionths of a pixel.
        h: Fx,
        rgb: Rgb,
    },
    /// Nothing: it is there for the layers that have it as their parent.
    Null,
    /// Shapes and their styles.
    Shape(Seq<Item>),
}

impl Duplicate for LayerKind {
    fn copy(&self) -> Result<LayerKind, Memory> {
        match self {
            LayerKind::Precomp {
                ref_id,
                w,
                h,
                st,
                sr,
                tm,
            } => {
                let (ref_id, tm) = copy_two(ref_id, tm)?;
                Ok(LayerKind::Precomp {
                    ref_id,
                    w: *w,
                    h: *h,
                    st: *st,
                    sr: *sr,
                    tm,
                })
            }
            LayerKind::Solid { w, h, rgb } => Ok(LayerKind::Solid {
                w: *w,
                h: *h,
                rgb: *rgb,
            }),
            LayerKind::Null => Ok(LayerKind::Null),
            LayerKind::Shape(items) => Ok(LayerKind::Shape(items.copy()?)),
        }
    }
}

/// A layer of a composition, after the Lottie Specification 1.0, "Layers".
#[derive(Drop)]
pub struct Layer {
    pub kind: LayerKind,
    /// The first time at which it is visible.
    pub ip: Time,
    /// The first time after `ip` at which it is no more visible.
    pub op: Time,
    pub hidden: bool,
    /// It serves as a matte, and is not drawn by itself.
    pub td: bool,
    /// The number by which other layers name it, in millionths.
    pub ind: Option<Fx>,
    /// The number of the layer whose transform it follows, in millionths.
    pub parent: Option<Fx>,
    pub matte: Matte,
    /// The number of its matte, in millionths. Without one its matte is the layer before it.
    pub tp: Option<Fx>,
    pub ks: Transform,
    pub masks: Seq<Mask>,
}

impl Duplicate for Layer {
    fn copy(&self) -> Result<Layer, Memory> {
        let (kind, ks, masks) = copy_three(&self.kind, &self.ks, &self.masks)?;
        Ok(Layer {
            kind,
            ip: self.ip,
            op: self.op,
            hidden: self.hidden,
            td: self.td,
            ind: self.ind,
            parent: self.parent,
            matte: self.matte,
            tp: self.tp,
            ks,
            masks,
        })
    }
}
